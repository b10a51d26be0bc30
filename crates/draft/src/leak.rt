//! The leak rates of streams.

ghost use Rattle.std.specs.Prelude.{◌≡◌, ◌≤◌};
ghost use Rattle.draft.specs.Leak.{leak_said, least_leak_of, rate_shown as rate_shown_said};

use probe::Codec;
use request::{MAX_LEAK, MIN_LEAK};

/// The least leak rate of a stream that is coded so, in bits a second: of MPEG-2 video 1.2 times the 15,000,000 of its Main Level, of
/// other video, whose level isn't known, as much as of audio (ISO/IEC 13818-1, 2.4.2.3); of teletext and subtitles that of their decoder
/// models (EN 300 472, EN 300 743); of all else that of tables.
fn least_leak(codec: Codec) -> u64
    ensures { result ≡ least_leak_of codec }
{
    match codec {
        Codec::Mpeg2Video => 18_000_000,
        Codec::Teletext => 6_750_000,
        Codec::Subtitles => 192_000,
        Codec::Mpeg1Video
        | Codec::Mpeg4Video
        | Codec::Avc
        | Codec::Hevc
        | Codec::Vvc
        | Codec::Jpeg2000
        | Codec::Mpeg1Audio
        | Codec::Mpeg2Audio
        | Codec::AdtsAac
        | Codec::LatmAac
        | Codec::Mpeg4Audio
        | Codec::Aac
        | Codec::Ac3
        | Codec::EnhancedAc3
        | Codec::Ac4
        | Codec::Dts => 2_000_000,
        _ => 1_000_000,
    }
}

/// What a stream shows of its leak rate by its mean rate and its highest one: the mean where its kind fixes the leak rate.
fn rate_shown(codec: Codec, mean: u64, highest: u64) -> u64
    ensures { result ≡ rate_shown_said codec mean highest }
{
    match codec {
        Codec::Teletext
        | Codec::Subtitles
        | Codec::Mpeg1Audio
        | Codec::Mpeg2Audio
        | Codec::AdtsAac
        | Codec::LatmAac
        | Codec::Mpeg4Audio
        | Codec::Aac
        | Codec::Ac3
        | Codec::EnhancedAc3
        | Codec::Ac4
        | Codec::Dts => mean,
        _ => highest,
    }
}

/// The leak rate of a stream's transport buffer, in bits a second, 1,000 to 100,000,000: that of its kind where that fixes it, and else the
/// highest rate that was measured, and no less than streams of its kind have. One of a fixed kind whose mean rate is above that of its kind
/// has its mean rate.
pub fn leak_of(codec: Codec, mean: u64, highest: u64) -> u64
    ensures value { result ≡ leak_said codec mean highest }
    ensures above { mean ≤ highest → mean ≤ 100000000 → mean ≤ result }
    ensures least { MIN_LEAK ≤ result }
    ensures most { result ≤ MAX_LEAK }
{
    rate_shown(codec, mean, highest)
        .max(least_leak(codec))
        .min(MAX_LEAK)
}
