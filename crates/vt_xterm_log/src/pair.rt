//! Two observers of one feed.
use vt_feed::{Machine, Observer};
use vt_syntax::EventKind;

/// Two observers that are told of the same. The pair is full if one of them is.
#[derive(Drop)]
pub struct Pair<A: Drop, B: Drop> {
    /// The observer that is told first.
    pub first: A,
    /// The observer that is told next.
    pub second: B,
}

impl<M: Machine, A: Observer<M> + Drop, B: Observer<M> + Drop> Observer<M> for Pair<A, B> {
    ghost use Rattle.std.specs.Prelude.{◌⊎◌};
    ghost use Rattle.vt_xterm_log.specs.Observers.{both_joined};

    ghost Saw = { λ o hs p. A.Saw o.first hs p.first × B.Saw o.second hs p.second };

    ghost HasRoom = { λ o n. A.HasRoom o.first n × B.HasRoom o.second n };

    ghost Fits = { λ o s n. A.Fits o.first s n × B.Fits o.second s n };

    ghost Full = { λ o. A.Full o.first ⊎ B.Full o.second };

    ghost joined = { both_joined A.Saw B.Saw (λ o. o.first) (λ o. o.second) A.joined B.joined };

    #[inline(always)]
    fn is_full(&self) -> bool {
        self.first.is_full() || self.second.is_full()
    }

    #[inline(always)]
    fn bytes(&mut self, bytes: &[u8]) {
        self.first.bytes(bytes);
        self.second.bytes(bytes);
    }

    #[inline(always)]
    fn event(&mut self, machine: &M, kind: EventKind, values: &[u16]) {
        self.first.event(machine, kind, values);
        self.second.event(machine, kind, values);
    }

    #[inline(always)]
    fn character(&mut self, machine: &M, c: char) {
        self.first.character(machine, c);
        self.second.character(machine, c);
    }

    #[inline(always)]
    fn limit(&self, machine: &M) -> usize {
        self.first.limit(machine).min(self.second.limit(machine))
    }

    #[inline(always)]
    fn run(&mut self, machine: &M, run: &[u8]) {
        self.first.run(machine, run);
        self.second.run(machine, run);
    }
}
