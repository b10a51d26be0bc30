//! A source and a sink over a device whose second call fails: each call asks the device once, and hands on what that answers.

mod device;

use crate::device_tests::device::Device;
use outlet::{Sink, WriteSink};
use reading::{ReadSource, Source};

/// The byte that a read gives; none where it fails.
fn byte_of(source: &mut ReadSource<Device>) -> Option<u8> {
    let mut piece = [0xFF; 4];
    match source.read(&mut piece) {
        Ok(1) => Some(piece[0]),
        _ => None,
    }
}

#[test]
fn a_source_reads_once_a_call(rt: HostRuntime) {
    let mut source = ReadSource::new(Device::new(1));
    assert_eq!(rt; byte_of(&mut source), Some(0));
    assert_eq!(rt; byte_of(&mut source), None);
    assert_eq!(rt; byte_of(&mut source), Some(2));
}

#[test]
fn a_sink_writes_once_a_call_and_flushes_nothing(rt: HostRuntime) {
    let mut sink = WriteSink::new(Device::new(1));
    assert!(rt; matches!(sink.write(&[1, 2]), Ok(1)));
    assert!(rt; sink.write(&[2]).is_err());
    assert!(rt; matches!(sink.write(&[2]), Ok(1)));
    let device = sink.into_inner();
    assert_eq!(rt; (device.calls, device.flushes), (3, 0));
}
