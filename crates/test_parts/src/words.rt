//! The words of a scenario's text.

use com_text::{TextError, Token, TokenSort, tokens};
use std::test::*;

#[test]
fn tokens_are_words_literals_and_line_ends(rt: HostRuntime) -> Result<(), Fail> {
    let text = b"set r1 \"a b\"x\"0F\" ; note\r\n\"open";
    let list = tokens(rt.alloc(), text)?;
    let token = |start: usize, end: usize, sort: TokenSort| Token { start, end, sort };
    assert_eq!(rt;
        list.as_slice(),
        [
            token(0, 3, TokenSort::Word),
            token(4, 6, TokenSort::Word),
            token(7, 12, TokenSort::Text),
            token(12, 17, TokenSort::Bytes),
            token(25, 26, TokenSort::LineEnd),
            token(26, 31, TokenSort::Unclosed),
        ]
        .as_slice()
    );
    assert!(rt; matches!(tokens(rt.alloc(), b"a\rb"), Err(TextError::Character(1))));
    Ok(())
}
