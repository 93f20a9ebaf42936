//! The number of an OSC string, which says whether it sets a title. (ctlseqs: Operating System Commands)

/// What is read of the number of an OSC string.
#[derive(Clone, Copy)]
pub(crate) enum Command {
    /// The digits so far, as a number. Without digits it is 0.
    Number(u16),
    /// The text of a title, after 0 or 2 and a semicolon.
    Title(u16),
    /// It sets no title.
    Other,
}

impl Command {
    /// Returns the command after its next byte.
    pub(crate) fn after(self, b: u8) -> Command {
        let Command::Number(n) = self else {
            return self;
        };
        if b == b';' && (n == 0 || n == 2) {
            return Command::Title(n);
        }
        let digit = b.wrapping_sub(b'0');
        if digit > 9 {
            return Command::Other;
        }
        Command::Number(n.saturating_mul(10).saturating_add(digit as u16))
    }

    /// Returns the number, 0 or 2, of a command that sets a title. Without a semicolon the title is empty.
    pub(crate) fn title_number(self) -> Option<u16> {
        match self {
            Command::Title(n) => Some(n),
            Command::Number(n) if n == 0 || n == 2 => Some(n),
            _ => None,
        }
    }
}
