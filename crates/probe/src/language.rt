//! The language of a stream.

ghost use Rattle.std.specs.Prelude.{◌≡◌, option_map};
ghost use Rattle.tables.specs.Descriptors.{descriptors_of};
ghost use Rattle.probe.specs.Language.{language_in as language_said_in, language_of as language_said};

use tables::DescriptorLoop;

/// The length of a language's code (ISO 639-2).
const CODE: usize = 3;

/// The code that the first descriptor with this tag begins with, if it is long enough.
fn language_in(descriptors: &DescriptorLoop, tag: u8) -> Option<&[u8]>
    ensures { option_map (λ code. code.now) result ≡ language_said_in tag (descriptors_of 0 descriptors.now) }
{
    let descriptor = descriptors.first(tag)?;
    if descriptor.body.len() < CODE {
        return None;
    }
    Some(&descriptor.body[..CODE])
}

/// The language of a stream with these descriptors, as the three bytes of its code: that of the ISO 639 language descriptor
/// (ISO/IEC 13818-1, 2.6.18), else of the subtitling descriptor, of the teletext descriptor, of the VBI teletext descriptor (EN 300 468,
/// 6.2.41, 6.2.43, 6.2.48).
pub fn language_of(descriptors: &DescriptorLoop) -> Option<&[u8]>
    ensures { option_map (λ code. code.now) result ≡ language_said (descriptors_of 0 descriptors.now) }
{
    if let Some(code) = language_in(descriptors, 0x0A) {
        return Some(code);
    }
    if let Some(code) = language_in(descriptors, 0x59) {
        return Some(code);
    }
    if let Some(code) = language_in(descriptors, 0x56) {
        return Some(code);
    }
    language_in(descriptors, 0x46)
}
