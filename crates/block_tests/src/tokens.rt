//! Tokens, streams of them as text, and their depth.

use std::alloc::AllocError;
use stream_tokens::Token::{self, Done, Empty, Item, Stop};
use stream_tokens::{Stream, has_depth, stream_text};

#[test]
fn tokens_are_joined_by_a_space(rt: HostRuntime) -> Result<(), AllocError> {
    let mut s = Stream::new(rt.alloc());
    assert!(rt; stream_text(rt.alloc(), &s)?.as_bytes().is_empty());
    for t in [Item(6), Empty, Item(u64::MAX), Stop(0), Stop(255), Done] {
        s.push(t)?;
    }
    assert_eq!(rt; s.len(), 6);
    assert_eq!(rt; s.get(1), Empty);
    let text = stream_text(rt.alloc(), &s)?;
    assert_eq!(rt;
        text.as_bytes(),
        b"6 N 18446744073709551615 S0 S255 D".as_slice()
    );
    Ok(())
}

#[test]
fn a_stream_gives_its_tokens_back(rt: HostRuntime) -> Result<(), AllocError> {
    let s = Stream::from_vec(Vec::from_slice(rt.alloc(), &[Item(1), Done])?);
    assert_eq!(rt; s.as_slice(), [Item(1), Done].as_slice());
    assert_eq!(rt; s.into_vec().as_slice(), [Item(1), Done].as_slice());
    Ok(())
}

#[test]
fn depths_of_some_lists(rt: HostRuntime) -> Result<(), AllocError> {
    let rows: [(&[Token], u8, bool); 14] = [
        (&[Item(5), Done], 0, true),
        (&[Empty, Done], 0, true),
        (&[Item(5), Done], 1, false),
        (&[Done], 0, false),
        (&[], 0, false),
        (&[Stop(0), Done], 1, true),
        (&[Item(5), Empty, Stop(0), Done], 1, true),
        (&[Item(5), Empty, Stop(0)], 1, false),
        (&[Stop(1), Done], 2, true),
        (&[Stop(0), Item(5), Stop(0), Stop(1), Done], 2, true),
        (&[Stop(1), Item(5), Stop(0), Stop(1), Done], 2, false),
        (
            &[Item(1), Stop(1), Stop(0), Item(2), Stop(2), Done],
            3,
            true,
        ),
        (&[Item(1), Stop(0), Item(2), Stop(1), Done], 3, false),
        (&[Item(1), Done, Stop(0), Done], 1, false),
    ];
    for (tokens, depth, answer) in rows {
        let s = Stream::from_vec(Vec::from_slice(rt.alloc(), tokens)?);
        assert_eq!(rt; has_depth(&s, depth), answer);
    }
    Ok(())
}
