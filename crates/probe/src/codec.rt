//! How an elementary stream is coded.

ghost use Rattle.std.specs.Prelude.{◌≡◌};
ghost use Rattle.tables.specs.Descriptors.{descriptors_of};
ghost use Rattle.probe.specs.Codec.{codec_of as codec_said, codec_of_type as type_said, codec_in as codec_said_in, has_tag as is_tag_among, extension_of};

use std::fmt;
use std::fmt::{Display, Formatter};
use tables::{DescriptorLoop, PmtRow};

/// The extension descriptor, whose first byte says which one it is (EN 300 468, 6.2.16).
const EXTENSION: u8 = 0x7F;

/// How an elementary stream is coded: by its stream_type (ISO/IEC 13818-1, table 2-34), and where that is private by the
/// descriptors of EN 300 468.
#[derive(Clone, Copy, Debug, PartialEq, Eq)]
pub enum Codec {
    Mpeg1Video,
    Mpeg2Video,
    Mpeg4Video,
    Avc,
    Hevc,
    Vvc,
    Jpeg2000,
    Mpeg1Audio,
    Mpeg2Audio,
    AdtsAac,
    LatmAac,
    Mpeg4Audio,
    Aac,
    Ac3,
    EnhancedAc3,
    Ac4,
    Dts,
    Teletext,
    Subtitles,
    PrivateSections,
    PrivateData,
    DsmCc,
    Metadata,
    Unknown,
}

/// What a stream_type says by itself (ISO/IEC 13818-1, table 2-34).
#[tactic(auto, unfolding(crate::specs::Codec::codec_of_type))]
fn codec_of_type(stream_type: u8) -> Codec
    ensures { result ≡ type_said stream_type }
{
    match stream_type {
        0x01 => Codec::Mpeg1Video,
        0x02 => Codec::Mpeg2Video,
        0x03 => Codec::Mpeg1Audio,
        0x04 => Codec::Mpeg2Audio,
        0x05 => Codec::PrivateSections,
        0x06 => Codec::PrivateData,
        0x08 | 0x0A..=0x0D | 0x14 => Codec::DsmCc,
        0x0F => Codec::AdtsAac,
        0x10 => Codec::Mpeg4Video,
        0x11 => Codec::LatmAac,
        0x15..=0x19 => Codec::Metadata,
        0x1B => Codec::Avc,
        0x1C => Codec::Mpeg4Audio,
        0x21 => Codec::Jpeg2000,
        0x24 => Codec::Hevc,
        0x33 => Codec::Vvc,
        _ => Codec::Unknown,
    }
}

/// Whether one of the descriptors has this tag.
fn has_tag(descriptors: &DescriptorLoop, tag: u8) -> bool
    ensures { result ≡ is_tag_among tag (descriptors_of 0 descriptors.now) }
{
    descriptors.first(tag).is_some()
}

/// descriptor_tag_extension of the first extension descriptor.
fn extension(descriptors: &DescriptorLoop) -> Option<u8>
    ensures { result ≡ extension_of (descriptors_of 0 descriptors.now) }
{
    let descriptor = descriptors.first(EXTENSION)?;
    descriptor.body.first().copied()
}

/// What the descriptors of a private stream say (EN 300 468, 6.2 and annex D).
#[tactic(auto, unfolding(crate::specs::Codec::codec_in))]
fn codec_in(descriptors: &DescriptorLoop) -> Option<Codec>
    ensures { result ≡ codec_said_in (descriptors_of 0 descriptors.now) }
{
    if has_tag(descriptors, 0x6A) {
        return Some(Codec::Ac3);
    }
    if has_tag(descriptors, 0x7A) {
        return Some(Codec::EnhancedAc3);
    }
    if has_tag(descriptors, 0x7B) {
        return Some(Codec::Dts);
    }
    if has_tag(descriptors, 0x7C) {
        return Some(Codec::Aac);
    }
    if has_tag(descriptors, 0x59) {
        return Some(Codec::Subtitles);
    }
    if has_tag(descriptors, 0x56) || has_tag(descriptors, 0x46) {
        return Some(Codec::Teletext);
    }
    match extension(descriptors) {
        Some(0x15) => Some(Codec::Ac4),
        Some(0x0E) => Some(Codec::Dts),
        _ => None,
    }
}

/// How the stream of a row of a PMT is coded. Where its stream_type is that of private data, or is the user's own (0x80 and
/// above), its descriptors say it, if one of them does.
pub fn codec_of(row: &PmtRow) -> Codec
    ensures { result ≡ codec_said row.now.stream_type (descriptors_of 0 row.now.descriptors) }
{
    let codec = codec_of_type(row.stream_type);
    if row.stream_type == 0x06 || row.stream_type >= 0x80 {
        return codec_in(&row.descriptors).unwrap_or(codec);
    }
    codec
}

impl Codec {
    /// Its name.
    pub fn name(self) -> &'static str {
        match self {
            Codec::Mpeg1Video => "MPEG-1 video",
            Codec::Mpeg2Video => "MPEG-2 video",
            Codec::Mpeg4Video => "MPEG-4 video",
            Codec::Avc => "AVC",
            Codec::Hevc => "HEVC",
            Codec::Vvc => "VVC",
            Codec::Jpeg2000 => "JPEG 2000",
            Codec::Mpeg1Audio => "MPEG-1 audio",
            Codec::Mpeg2Audio => "MPEG-2 audio",
            Codec::AdtsAac => "AAC in ADTS",
            Codec::LatmAac => "AAC in LATM",
            Codec::Mpeg4Audio => "MPEG-4 audio",
            Codec::Aac => "AAC",
            Codec::Ac3 => "AC-3",
            Codec::EnhancedAc3 => "E-AC-3",
            Codec::Ac4 => "AC-4",
            Codec::Dts => "DTS",
            Codec::Teletext => "teletext",
            Codec::Subtitles => "subtitles",
            Codec::PrivateSections => "private sections",
            Codec::PrivateData => "private data",
            Codec::DsmCc => "DSM-CC",
            Codec::Metadata => "metadata",
            Codec::Unknown => "unknown",
        }
    }
}

impl Display for Codec {
    fn fmt<W: fmt::Write>(&self, f: &mut Formatter<W>) -> fmt::Result {
        f.write_str(self.name())
    }
}
