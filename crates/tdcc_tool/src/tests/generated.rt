//! What `gen` writes.

use super::{assert_over, in_pieces, roomy};
use std::test::Fail;

#[test]
fn a_generated_run_has_one_line_and_reads_nothing(rt: HostRuntime) -> Result<(), Fail> {
    let alloc = rt.alloc();
    for words in ["gen 1000", "gen 1000 --workers 1", "gen 1000 --workers 8"] {
        // The first read would fail.
        let mut fails = Vec::new(alloc);
        fails.push(0)?;
        let source = in_pieces(alloc, b"skip".as_slice(), 4, fails)?;
        let wanted =
            "0|instants 1000 ran 47631 cells 17289 last s1 s2 s3 s6 s9 s12 s15 s21 s24 s25 s27 s30 s31 n2>=9 n3>=81 n5>=62 n6>=14 n7>=52\n|";
        assert_over(&rt, alloc, words, source, roomy(alloc)?, wanted)?;
    }
    Ok(())
}
