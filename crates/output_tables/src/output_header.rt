//! The headers of the output's sections.

ghost use Rattle.std.specs.Prelude.{◌≡◌};
ghost use Rattle.output_tables.specs.Output.{output_header};

use request::Request;
use tables::Header;

/// The header of section `number` of a table, the last of which is `last`.
pub fn output_header(request: &Request, table_id_extension: u16, number: u8, last: u8) -> Header
    ensures { result ≡ output_header request.now table_id_extension number last }
{
    Header {
        table_id_extension,
        version_number: request.version(),
        current_next_indicator: true,
        section_number: number,
        last_section_number: last,
    }
}
