//! The leak rate of a PID's transport buffer, as a word says it.

ghost use Rattle.std.specs.Prelude.{◌≡◌, IfOk, IfSome};
ghost use Rattle.std.specs.List.{All};
ghost use Rattle.words.specs.Ranges.{IsAllowedLeak};

use crate::command::MOST_RATE;
use std::alloc::{AllocError, Global};

/// The last PID.
const LAST_PID: u16 = 0x1FFF;

/// What is said of a word that isn't a PID and its leak rate.
const NO_LEAK: &str =
    "error: '--leak <PID=N>' has a PID from 0 to 0x1FFF and a rate from 1 to 100000000 bits a second, as 0x0200=2000000\n\nFor more information, try '--help'.\n";

/// The PID that a text writes, in decimals or behind `0x` in hexadecimal digits.
fn pid_in(text: &str) -> Option<u16> {
    match text.strip_prefix("0x") {
        Some(digits) => u16::from_str_radix(digits, 16).ok(),
        None => text.parse().ok(),
    }
}

/// The PID and its leak rate that a word has, if it has them.
fn leak_in(word: &str) -> Option<(u16, u64)>
    ensures { IfSome result IsAllowedLeak }
{
    let (pid, rate) = word.split_once('=')?;
    let pid = pid_in(pid)?;
    let rate: u64 = rate.parse().ok()?;
    if pid > LAST_PID || rate < 1 || rate > MOST_RATE {
        return None;
    }
    Some((pid, rate))
}

/// The leak rates that these words have; what is said where one has none.
pub(crate) fn leaks_in(
    alloc: Global,
    words: &[&str],
) -> Result<Result<Vec<(u16, u64)>, &'static str>, AllocError>
    ensures { IfOk result (λ read. IfOk read (λ leaks. All IsAllowedLeak leaks.items)) }
{
    let mut leaks = Vec::new(alloc);
    for word in words {
        let Some(leak) = leak_in(word) else {
            return Ok(Err(NO_LEAK));
        };
        leaks.push(leak)?;
    }
    Ok(Ok(leaks))
}
