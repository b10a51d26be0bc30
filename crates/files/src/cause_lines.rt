//! The line of a plan's text that has a value out of its range.

use request::Parts;
use request_causes::{RangeCause, RequestCause, ServiceCause};
use text_causes::{key_line, top_key_line};

/// How many streams the first so many services have.
fn streams_of(parts: &Parts, services: usize) -> usize {
    let mut streams = 0usize;
    for service in parts.services.iter().take(services) {
        streams = streams.saturating_add(service.streams.len());
    }
    streams
}

/// The line of a value of the service at this place.
fn service_line(text: &str, parts: &Parts, service: usize, cause: &ServiceCause) -> Option<usize> {
    let services = parts.services.len();
    match cause {
        ServiceCause::NoInput { .. } => key_line(text, "service", service, services, "input"),
        ServiceCause::Number(number) => {
            key_line(text, "service", service, services, number.key.name())
        }
        ServiceCause::Stream { stream, number } => key_line(
            text,
            "service.stream",
            streams_of(parts, service).saturating_add(*stream),
            streams_of(parts, services),
            number.key.name(),
        ),
    }
}

/// The line of a value that is out of its range, in a text that writes these values. None where it isn't known, and where
/// what is out of its range is a count.
fn range_line(text: &str, parts: &Parts, cause: &RangeCause) -> Option<usize> {
    match cause {
        RangeCause::Top(number) => top_key_line(text, number.key.name()),
        RangeCause::NameLength(_) | RangeCause::NameByte { .. } => {
            top_key_line(text, "network_name")
        }
        RangeCause::DescriptorsLength(_) | RangeCause::DescriptorsNotWhole => {
            top_key_line(text, "transport_descriptors")
        }
        RangeCause::Input { input, cause } => {
            key_line(text, "input", *input, parts.inputs.len(), cause.key())
        }
        RangeCause::Service { service, cause } => service_line(text, parts, *service, cause),
        RangeCause::InputCount(_) | RangeCause::ServiceCount(_) | RangeCause::StreamCount(_) =>
            None,
    }
}

/// The line, from 1, at which a text that writes these values has the one value that is a cause. None where it isn't known,
/// and where several values together are the cause.
pub(crate) fn cause_line(text: &str, parts: &Parts, cause: &RequestCause) -> Option<usize> {
    match cause {
        RequestCause::OutOfRange(cause) => range_line(text, parts, cause),
        RequestCause::ServiceTaken { .. } | RequestCause::PidTaken(_) => None,
    }
}
