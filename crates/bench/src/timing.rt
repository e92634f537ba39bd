// Time that some calls took.
use std::time::Instant;

#[derive(Clone, Copy)]
pub(crate) struct Spent {
    nanos: u128,
    calls: usize,
}

impl Spent {
    pub(crate) fn none() -> Spent {
        Spent { nanos: 0, calls: 0 }
    }

    // Adds the time since the start, for so many calls.
    pub(crate) fn add(
        &mut self,
        rt: &HostRuntime,
        start: Instant,
        calls: usize,
    ) -> anyhow::Result<()> {
        let nanos = start.elapsed(rt)?.as_nanos();
        self.nanos = self.nanos.saturating_add(nanos);
        self.calls = self.calls.saturating_add(calls);
        Ok(())
    }

    // Prints the time of one call on standard error, and how many there were on standard output.
    pub(crate) fn report(&self, rt: &HostRuntime, what: &str) -> anyhow::Result<()> {
        let calls = self.calls;
        let each = self.nanos / calls.max(1) as u128;
        println!(rt; "{calls} calls of {what}")?;
        eprintln!(rt; "{what}: {each} ns a call")?;
        Ok(())
    }
}
