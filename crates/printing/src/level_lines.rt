//! The highest levels of transport buffers, in lines.

use levels::Levels;
use std::io;
use std::io::Write;

/// Prints a line for each transport buffer: its PID, its leak, its highest level, the slot at whose end it was so high first, how many
/// packets left it above 512 bytes, and how many there were.
pub(crate) fn print_levels<O: Write>(levels: &Levels, out: &mut O) -> io::Result<()> {
    for level in levels.all() {
        let (pid, leak) = (level.pid(), level.leak());
        let (bytes, slot, over) = (level.highest(), level.slot(), level.over());
        let packets = level.packets();
        writeln!(
            out,
            "level 0x{pid:04X} leak {leak} bytes {bytes} slot {slot} over {over} packets {packets}"
        )?;
    }
    Ok(())
}
