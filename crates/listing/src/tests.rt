// The notation of each form, and the line at the end.
use crate::errors::*;
use crate::images::*;
use crate::lines::*;
use crate::tallies::*;
use std::test::Fail;

#[test]
fn lines_are_in_the_notation_of_the_manual(rt: HostRuntime) -> Result<(), Fail> {
    let heap = rt.alloc();
    for (address, word, text) in [
        (0, 0x18_AE05, "0000 18AE05 MOVE r0, (i0, 0x05)"),
        (0x1F, 0x33_FFFB, "001F 33FFFB JUMP 0x0004"),
        (0x2000, 0x0C_1EDF, "2000 0C1EDF CMP r0, r1"),
        (0xFFFF, 0x0C_0EDF, "FFFF 0C0EDF CMPA r0, r1"),
        (0x1_0000, 0x0E_FEFB, "10000 0EFEFB TSTB r0, #0x04"),
        (1, 0x0B_EFFF, "0001 0BEFFF refused 25"),
        (2, 0xFF_FFFF, "0002 FFFFFF refused 30"),
    ] {
        let line = Line { address, word };
        let written = format!(in heap; "{line}")?;
        assert_eq!(rt; written.as_str(), text);
    }
    Ok(())
}

#[test]
fn the_last_line_counts_or_refuses(rt: HostRuntime) -> Result<(), Fail> {
    let heap = rt.alloc();
    let image = [0x3F, 0xFF, 0xFF, 0x0B, 0xEF, 0xFF, 0x40, 0x00, 0x00];
    let tally = Tally {
        words: 3,
        refused: 2,
    };
    assert_eq!(rt; ending(&image), Ok(tally));
    assert_eq!(rt; format!(in heap; "{tally}")?.as_str(), "3 words, 2 refused");
    let none = Tally {
        words: 0,
        refused: 0,
    };
    assert_eq!(rt; ending(&[]), Ok(none));
    let left_over = ImageError::LeftOver;
    assert_eq!(rt; ending(&[0x3F, 0xFF, 0xFF, 0x00]), Err(left_over));
    assert_eq!(rt;
        format!(in heap; "{left_over}")?.as_str(),
        "refused 29 at 0"
    );
    Ok(())
}
