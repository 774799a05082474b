//! The scripts of three numbers, against what was worked out apart. Each is drawn over another.

use super::*;
use std::test::Fail;

#[test]
fn a_number_gives_one_script(rt: HostRuntime) -> Result<(), Fail> {
    let due: [(u64, usize, &[u8]); 3] = [
        (
            0,
            57_030,
            b"cdb 28000000014600000a00\ncdb 28000000002900000b00\n",
        ),
        (7, 57_521, b"wear 36 8\ncdb 2a00000002ea00000300 count e6\n"),
        (
            u64::MAX,
            57_171,
            b"cdb 28000000043c00001000\ncdb 2a000000033900001000 count 89\n",
        ),
    ];
    assert_eq!(rt; SCRIPT_ROOM, 68_081);
    for (seed, bytes, last) in due {
        let mut script = Vec::with_capacity(rt.alloc(), SCRIPT_ROOM)?;
        draw_script(&mut script, 1);
        draw_script(&mut script, seed);
        assert_eq!(rt; script.len(), bytes, "{seed}");
        assert!(rt; script.starts_with(HEAD), "{seed}: another beginning");
        assert!(rt; script.ends_with(last), "{seed}: another end");
    }
    Ok(())
}
