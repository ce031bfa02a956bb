//! Events that need no user, until none is left.
ghost use Rattle.std.specs.Prelude.{◌≡◌, ◌<◌, ◌^◌, ℕ, true, Some, None, length, slice_get, IfOk, OnOk, OnErr};
ghost use Rattle.ncp_world.specs.Kinds.{IsTriedOf, WouldReportNothing, AreTwoAt, GoOrRest, GoOrRestTo, GoOrRestAt};
ghost use Rattle.ncp_world.specs.Next.{next_to, next_to_others, next_at, next_by_itself, Takes, GoesNext, RunsOn};

use crate::hosts::AnyHosts;
use crate::recorded::Recorded;
use std::alloc::AllocError;

impl<H: AnyHosts> Recorded<H> {
    // Performs an event and appends its note, unless the note would report nothing.
    fn attempt(&mut self, event: H::Event) -> Result<bool, AllocError>
        ensures tried { IfOk result (λ done. IsTriedOf H.kind event done self.old self.new) }
        ensures err { OnErr result (self.new ≡ self.old) }
    {
        let tried = self.notes.attempt(&mut self.hosts, &event);
        drop(event);
        tried
    }

    // Performs the next event from a host without a ready link to another: the message on the
    // lowest link that keeps one is delivered or answered; else, if it is held, it is woken. If no
    // message is kept, returns `false` and nothing has happened.
    fn go_on_to(&mut self, from: H::Name, to: H::Name) -> Result<bool, AllocError>
        requires two { (i : ℕ) × (j : ℕ) × AreTwoAt H.kind i j from to self.old.hosts }
        requires none { WouldReportNothing H.kind (H.kind.out from) self.old.hosts }
        ensures on { IfOk result (λ more. GoOrRestTo H.kind from to more self.old self.new) }
        ensures next { IfOk result (λ more.
            Takes H.kind (next_to H.kind from to self.old.hosts) more self.old self.new) }
        ensures err { OnErr result (self.new ≡ self.old) }
    {
        let Some(link) = self.hosts.first_kept(from, to) else {
            return Ok(false);
        };
        if self.attempt(H::deliver(from, to, link))? {
            return Ok(true);
        }
        if self.attempt(H::answer(from, to, link))? {
            return Ok(true);
        }
        let wake = self.hosts.wake(from, to);
        self.attempt(wake)
    }

    // Performs the next event from the host at an index, without a ready link, to the other hosts,
    // in their order.
    fn go_on_to_others(&mut self, at: usize, from: H::Name) -> Result<bool, AllocError>
        requires from { slice_get (H.kind.names self.old.hosts) at ≡ Some from }
        requires none { WouldReportNothing H.kind (H.kind.out from) self.old.hosts }
        ensures on { IfOk result (λ more. GoOrRestAt H.kind at more self.old self.new) }
        ensures next { IfOk result (λ more.
            Takes H.kind (next_to_others H.kind at from self.old.hosts) more self.old self.new) }
        ensures err { OnErr result (self.new ≡ self.old) }
    {
        for place in 0..self.hosts.count() {
            if place == at {
                continue;
            }
            let to = self.hosts.name_at(place);
            if self.go_on_to(from, to)? {
                return Ok(true);
            }
        }
        Ok(false)
    }

    // Performs the next event of the host at an index: sends its next message, or goes on with the
    // other hosts.
    fn go_on_at(&mut self, at: usize) -> Result<bool, AllocError>
        requires { at < length (H.kind.names self.old.hosts) }
        ensures on { IfOk result (λ more. GoOrRestAt H.kind at more self.old self.new) }
        ensures next { IfOk result (λ more. (from : H.Name) × (slice_get (H.kind.names self.old.hosts) at ≡ Some from)
            × Takes H.kind (next_at H.kind self.old.hosts at from) more self.old self.new) }
        ensures err { OnErr result (self.new ≡ self.old) }
    {
        let from = self.hosts.name_at(at);
        if self.attempt(H::out(from))? {
            return Ok(true);
        }
        self.go_on_to_others(at, from)
    }

    /// Performs the next event that needs no user, of the first host that has one: `go_on` of hosts of
    /// any kind. If there is none, returns `false` and nothing has happened.
    pub fn go_on_once(&mut self) -> Result<bool, AllocError>
        ensures on { IfOk result (λ more. GoOrRest H.kind more self.old self.new) }
        ensures next { IfOk result (λ more. GoesNext H.kind more self.old self.new) }
        ensures err { OnErr result (self.new ≡ self.old) }
    {
        for at in 0..self.hosts.count() {
            if self.go_on_at(at)? {
                return Ok(true);
            }
        }
        Ok(false)
    }

    // The same, with a bound on the number of notes.
    fn go_on_in_room(&mut self) -> Result<bool, AllocError>
        ensures on { IfOk result (λ more. GoOrRest H.kind more self.old self.new) }
        ensures next { IfOk result (λ more. GoesNext H.kind more self.old self.new) }
        ensures room { IfOk result (λ more. more ≡ true → length self.new.notes < 2 ^ 64) }
        ensures err { OnErr result (self.new ≡ self.old) }
    {
        let more = self.go_on_once()?;
        let _notes = self.transcript().len();
        Ok(more)
    }

    /// Performs such events until only a call can follow.
    pub(crate) fn go_on_to_the_end(&mut self) -> Result<(), AllocError>
        ensures made { H.kind.GoesOn self.old self.new }
        ensures next { RunsOn H.kind self.old self.new }
        ensures settled { OnOk result (H.kind.IsSettled self.new.hosts) }
        ensures last { OnOk result (next_by_itself H.kind self.new.hosts ≡ None) }
    {
        while self.go_on_in_room()? {}
        Ok(())
    }
}
