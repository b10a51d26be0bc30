//! How a thread waits for what another does, and how it is woken: a sleeper, and the wakers of it that others have.
//!
//! What is waited for lies elsewhere, as a place in a ring. Whoever waits looks there, calls `wait` behind each look that found nothing,
//! and `found` behind one that found it; whoever changes it calls `wake` behind the change, or behind the last of several. The protocol is
//! this:
//!
//! 1. The sleeper makes some first looks. Behind each of them but the first four it yields the core, and tells nobody that it waits. Where
//!    other programs want the core, it makes only four, and then sleeps 50 microseconds: a nap, which nobody ends.
//! 2. Then it tells that it waits, by one word that all its wakers see, and looks once more.
//! 3. Where it found nothing since it told, and its first looks are done, it sleeps.
//! 4. A waker reads the word behind each change. If the word names this change, the waker sets it to 0 and gives the sleeper a token, which
//!    ends its sleep. A waker that stops between the two delays what the others would have told.
//!
//! No wake-up is lost: all these reads and writes, and those of the ring, have one order. If the last look came before the change, the word
//! was written before the waker read it, so the waker gives the token. A token that is given before the sleeper sleeps stays, and the
//! sleep ends at once. A sleep may also end for nothing, which is why each is followed by a look.
//!
//! So a change costs one load where nobody waits. How many first looks there are depends on the last sleep: where it was short, another
//! thread of the run is at work, and is likely to be done soon. A long yield gave the core to another program, for milliseconds; a nap is the
//! shorter pause then.
#![tactic(auto)]

mod bell;
mod napping;
mod rest;
mod sleeper;
mod waker;

pub use napping::nap;
pub use rest::Rest;
pub use sleeper::Sleeper;
pub use waker::Waker;
