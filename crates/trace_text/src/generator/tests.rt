//! A program and a trace, worked out apart from this crate.
use super::generate;
use std::alloc::Global;
use std::test::Fail;

/// The texts, with bars between each two.
fn in_parallel(alloc: Global, texts: &[&[u8]]) -> Result<Vec<u8>, Fail> {
    let mut joined = Vec::new(alloc);
    for (place, text) in texts.iter().enumerate() {
        if place > 0 {
            joined.extend_from_slice(b" || ")?;
        }
        joined.extend_from_slice(text)?;
    }
    Ok(joined)
}

/// The sequence of 8 goes on with 238199713, 1760618950 and 720506247. Without their low 16 bits
/// these are 3634, 26864 and 10994: the first rule asks for s0, has the form 4, and ends with s0.
#[test]
fn all_five_forms_are_among_the_first_rules_of_eight(rt: HostRuntime) -> Result<(), Fail> {
    let alloc = rt.alloc();
    let (program, _) = generate(alloc, 8)?;
    let mut front =
        b"signal s0, s1, s2, s3, s4, s5, s6, s7, s8, s9, s10, s11, s12, s13, s14, s15, ".to_vec(
            alloc,
        )?;
    front.extend_from_slice(b"s16, s17, s18, s19, s20, s21, s22, s23, s24, s25, s26, s27, s28, ")?;
    front.extend_from_slice(b"s29, s30, s31; int n0 in 0..99, n1 in 0..99, n2 in 0..99, ")?;
    front.extend_from_slice(b"n3 in 0..99, n4 in 0..99, n5 in 0..99, n6 in 0..99, n7 in 0..99; ")?;
    let rules = in_parallel(
        alloc,
        &[
            b"do always if s0 else s1 watching s0",
            b"always if s1 else s2",
            b"when s0 do always s3",
            b"always if s1 else s4",
            b"always if s2 else s5",
            b"always if s3 else s6",
            b"always if s4 then s7",
            b"do always if s5 else s8 watching s2",
            b"do always if s4 else s9 watching s1",
            b"always if s5 else s10",
            b"always if s5 then next s11",
        ],
    )?;
    front.extend_from_slice(&rules)?;
    assert!(rt; program.starts_with(&front), "{program:?}");
    let bounds = in_parallel(
        alloc,
        &[
            b"do always if s12 else s31 watching s30",
            b"always if s14 then n0>=38",
            b"always if s14 then n1>=59",
            b"always if s9 then n2>=87",
            b"always if s7 then n3>=36",
            b"always if s15 then n4>=55",
            b"always if s15 then n5>=6",
            b"always if s24 then n6>=28",
            b"always if s1 then n7>=60",
        ],
    )?;
    assert!(rt; program.ends_with(&bounds), "{program:?}");
    assert_eq!(rt; program.len(), 1_402);
    Ok(())
}

#[test]
fn the_lines_of_eight_go_on_with_its_numbers(rt: HostRuntime) -> Result<(), Fail> {
    let (_, trace) = generate(rt.alloc(), 8)?;
    let wanted = b"\ns1 s14\n\ns8 s3\ns25 s9 s15\ns24\ns11 s1\ns20 s3\n";
    assert_eq!(rt; trace.as_slice(), wanted.as_slice());
    Ok(())
}

#[test]
fn zero_has_a_program_and_no_lines(rt: HostRuntime) -> Result<(), Fail> {
    let (program, trace) = generate(rt.alloc(), 0)?;
    assert!(rt;
        program.ends_with(b" || always if s19 then n7>=74"),
        "{program:?}"
    );
    assert!(rt; trace.is_empty());
    Ok(())
}
