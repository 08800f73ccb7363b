//! How long a peer is waited for: `peer_reader` and `peer_writer` keep a deadline each, and
//! `socket` reads and writes only in a wait.

ghost use Rattle.std.specs.Prelude.{◌≡◌, ◌+◌, ◌-◌, ◌≤◌, min, IfOk, None, OnErr, Some};
ghost use Rattle.std.specs.Duration.{as_nanos, max_nanos};
ghost use Rattle.std.specs.Option.{option_map};
ghost use Rattle.std.specs.Time.{instant_nanos};
ghost use Rattle.rr_listener.specs.ServingTimes.{SetsTimeout, next_wait};

use std::io;
use std::io::ErrorKind;
use std::time::{Duration, Instant};

/// How many seconds a call waits for a peer at most (profile).
pub const LONGEST_WAIT: u64 = 10;

/// A wait for a peer that has begun. It cannot be let go: it has to be ended, and then its time is
/// taken.
pub struct Wait {
    since: Instant,
}

impl Wait {
    /// A wait from now on, though no clause says when it began. The error is the system's.
    pub fn begin(rt: &HostRuntime) -> io::Result<Wait> {
        Ok(Wait {
            since: Instant::now(rt)?,
        })
    }
}

/// How much of its time a peer has taken, and the timeout that was set last. Time counts while a
/// call waits for this peer, and not while the desk works or others are served.
#[derive(Clone, Copy)]
pub struct Deadline {
    taken: Duration,
    timeout: Option<Duration>,
    ghost within: { as_nanos taken ≤ max_nanos },
}

impl Deadline {
    ghost use Rattle.rr_listener.specs.PeerCalls.{TakesUp};

    /// No time is taken yet, and no timeout is set.
    pub fn new() -> Deadline
        ensures taken { as_nanos result.taken ≡ 0 }
        ensures unset { result.timeout ≡ None }
    {
        Deadline {
            taken: Duration::ZERO,
            timeout: None,
        }
    }

    /// Ends a wait now, and adds it to the time taken; no clause says how long it was, only that
    /// the time taken does not become less. If the clock cannot be read all time is taken, and the
    /// error is the system's. The timeout stays.
    pub fn end(&mut self, rt: &HostRuntime, wait: Wait) -> io::Result<()>
        ensures taken { as_nanos self.old.taken ≤ as_nanos self.new.taken }
        ensures unknown { OnErr result (as_nanos self.new.taken ≡ max_nanos) }
        ensures timeout { self.new.timeout ≡ self.old.timeout }
    {
        match Instant::now(rt) {
            Ok(now) => {
                self.end_at(wait, now);
                Ok(())
            }
            Err(error) => {
                self.end_unknown(wait);
                Err(error)
            }
        }
    }

    /// Ends a wait at this time, and adds it to the time taken, which stays at the longest
    /// `Duration` once it is there.
    fn end_at(&mut self, wait: Wait, now: Instant)
        ensures { TakesUp (min (as_nanos self.old.taken
            + (instant_nanos now - instant_nanos wait.since)) max_nanos) self.old self.new }
    {
        let Wait { since } = wait;
        self.taken = self.taken.saturating_add(now.duration_since(since));
    }

    /// Ends a wait that nobody knows the time of: it takes all time.
    fn end_unknown(&mut self, wait: Wait)
        ensures { TakesUp max_nanos self.old self.new }
    {
        let Wait { since: _ } = wait;
        self.taken = Duration::MAX;
    }

    /// The timeout to set before the next call, if the peer is given so many seconds in all: what
    /// is left of these, but at most 10 seconds. `None` only if the one that was set last is the
    /// same. In both cases it then stands as the one set last. The time taken stays. The error is
    /// that nothing is left; then the deadline stays.
    pub fn next_timeout(&mut self, seconds: u64) -> io::Result<Option<Duration>>
        ensures sets { IfOk result
            (λ set. SetsTimeout (next_wait seconds (as_nanos self.old.taken))
            self.old.timeout self.new.timeout set) }
        ensures over { OnErr result (next_wait seconds (as_nanos self.old.taken) ≡ None) }
        ensures stays { OnErr result (self.new ≡ self.old) }
        ensures taken { self.new.taken ≡ self.old.taken }
    {
        match self.next_wait(seconds) {
            Some(wait) => Ok(self.set(wait)),
            None => Err(io::Error::from(ErrorKind::TimedOut)),
        }
    }

    /// Notes the timeout of the next call, and gives it if another one stood.
    fn set(&mut self, wait: Duration) -> Option<Duration>
        ensures sets { SetsTimeout (Some (as_nanos wait)) self.old.timeout self.new.timeout result }
        ensures taken { self.new.taken ≡ self.old.taken }
    {
        if self.timeout == Some(wait) {
            return None;
        }
        self.timeout = Some(wait);
        Some(wait)
    }

    /// How long the next call may wait, if the peer is given so many seconds in all: what is left
    /// of these, but at most 10 seconds. `None` if nothing is left.
    fn next_wait(&self, seconds: u64) -> Option<Duration>
        ensures { option_map as_nanos result ≡ next_wait seconds (as_nanos self.now.taken) }
    {
        let longest = Duration::from_secs(LONGEST_WAIT);
        let left = Duration::from_secs(seconds).saturating_sub(self.taken);
        if left.is_zero() {
            None
        } else if left.saturating_sub(longest).is_zero() {
            Some(left)
        } else {
            Some(longest)
        }
    }
}
