//! Why a text is no path: a tag file that lists it is told by one word for all of these.
use bag_path::{BagPath, PathFault, Version, unescape};
use std::test::Fail;

#[test]
fn texts_that_are_no_paths(rt: HostRuntime) {
    for (text, fault) in [
        ("", PathFault::Empty),
        ("/data/a", PathFault::EmptySegment),
        ("data/", PathFault::EmptySegment),
        ("data//k", PathFault::EmptySegment),
        (".", PathFault::DotSegment),
        ("data/../k", PathFault::DotSegment),
        ("data/a\0b", PathFault::Nul),
        ("data", PathFault::PayloadRoot),
        ("data/..//\0", PathFault::EmptySegment),
        ("data/..\0/..", PathFault::DotSegment),
    ] {
        assert_eq!(rt; BagPath::parse(rt.alloc(), text), Err(fault), "{text:?}");
    }
}

#[test]
fn texts_that_spell_no_path(rt: HostRuntime) {
    for (text, version, fault) in [
        ("data/%0\u{e9}", Version::V1, PathFault::BadEscape),
        ("data//%41", Version::V1, PathFault::BadEscape),
        ("data//%41", Version::V097, PathFault::EmptySegment),
        ("data/../%25", Version::V1, PathFault::DotSegment),
        ("data/../%25", Version::V097, PathFault::DotSegment),
        ("data/%0A/", Version::V1, PathFault::EmptySegment),
        ("data/%0A/", Version::V097, PathFault::EmptySegment),
        ("data/%25\0", Version::V1, PathFault::Nul),
        ("data/%00\0", Version::V097, PathFault::Nul),
        ("data", Version::V1, PathFault::PayloadRoot),
        ("", Version::V097, PathFault::Empty),
    ] {
        let answer = unescape(rt.alloc(), text, version);
        assert_eq!(rt; answer, Err(fault), "{text:?}");
    }
}

#[test]
fn what_faults_say(rt: HostRuntime) -> Result<(), Fail> {
    let text = format!(in rt.alloc(); "{}; {}", PathFault::DotSegment, PathFault::BadEscape)?;
    assert_eq!(rt;
        text.as_str(),
        "the path has a segment `.` or `..`; a `%` begins no escape"
    );
    Ok(())
}
