//! A law of the program's commands, over the definitions alone. A caller cites it by a call of its function.
ghost use Rattle.std.specs.Prelude.{◌≡◌, ℕ, List, Option, codes, option_map, string_bytes};
ghost use Rattle.std.specs.declared.alloc.Global.{Global};
ghost use Rattle.std.specs.declared.string.String.{String};
ghost use Rattle.vt_device.specs.Runs.{Flags};
ghost use Rattle.vt_term.specs.State.{power_up};
ghost use Rattle.vt_term.specs.Play.{play};
ghost use Rattle.vt_term.specs.Scrolling.{log};
ghost use Rattle.vt_term.specs.Text.{text};
ghost use Rattle.vt_paint.specs.Repaint.{paint};
ghost use Rattle.vt_picture.specs.Show.{show};
ghost use Rattle.vt_cli.specs.declared.asked.Request.{Request};
ghost use Rattle.vt_cli.specs.Request.{IsRequest};
ghost use Rattle.vt_device.specs.Output.{OutputTable, nothing, always};
ghost use Rattle.vt_replay.specs.declared.requests.Outcome.{Outcome};
ghost use Rattle.vt_replay.specs.Due.{is_nothing};
ghost use Rattle.vt_recording.specs.declared.format.Format.TheVariants.{Raw};
ghost use Rattle.vt_replay.specs.Request.{format_of, OutcomeTable};
ghost use Rattle.vt_replay.specs.Plain.{IsPlainCommand};

/// States what `text`, `repaint`, `show` and `log` write without options, in terms of the play alone. The words are the command, and
/// a file if its name is among them. For `show` and `log` the beginning of the input decides, and shows no recording: it is raw.
///
/// `request` makes a request of the words, and `format_of` returns a format for it and any beginning of the input. What `carry_out`
/// states for both is then the table of results for the bytes as they come, played from power-up as a VT220 plays them. The
/// request has the file of the words.
pub fn plain()
    ensures text { (file : Option (List ℕ)) (words : List (String Global)) (r : Request) (o : Outcome) (beginning : List ℕ)
        (timing : Option (List ℕ)) (b w : List ℕ) (f : Flags) → IsPlainCommand (codes "text") file words → IsRequest words r
        → OutcomeTable o r (format_of r.format beginning) timing b w f
        → (OutputTable nothing (λ bytes. text (play power_up bytes).state) always o.ended r.piece b w f r.limit)
        × (option_map (λ name. string_bytes name) r.file ≡ file) }
    ensures repaint { (file : Option (List ℕ)) (words : List (String Global)) (r : Request) (o : Outcome) (beginning : List ℕ)
        (timing : Option (List ℕ)) (b w : List ℕ) (f : Flags) → IsPlainCommand (codes "repaint") file words → IsRequest words r
        → OutcomeTable o r (format_of r.format beginning) timing b w f
        → (OutputTable nothing (λ bytes. paint (play power_up bytes).state)
        (λ bytes. is_nothing (play power_up bytes).state.held) o.ended r.piece b w f r.limit)
        × (option_map (λ name. string_bytes name) r.file ≡ file) }
    ensures show { (file : Option (List ℕ)) (words : List (String Global)) (r : Request) (o : Outcome) (beginning : List ℕ)
        (timing : Option (List ℕ)) (b w : List ℕ) (f : Flags) → IsPlainCommand (codes "show") file words → IsRequest words r
        → format_of r.format beginning ≡ Raw → OutcomeTable o r (format_of r.format beginning) timing b w f
        → (OutputTable nothing (λ bytes. show (play power_up bytes).state) always o.ended r.piece b w f r.limit)
        × (option_map (λ name. string_bytes name) r.file ≡ file) }
    ensures log { (file : Option (List ℕ)) (words : List (String Global)) (r : Request) (o : Outcome) (beginning : List ℕ)
        (timing : Option (List ℕ)) (b w : List ℕ) (f : Flags) → IsPlainCommand (codes "log") file words → IsRequest words r
        → format_of r.format beginning ≡ Raw → OutcomeTable o r (format_of r.format beginning) timing b w f
        → (OutputTable (λ bytes. log power_up bytes) (λ bytes. text (play power_up bytes).state) always o.ended r.piece b w f
        r.limit) × (option_map (λ name. string_bytes name) r.file ≡ file) }
{}
