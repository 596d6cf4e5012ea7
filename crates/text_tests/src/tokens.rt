//! Texts, whole and byte by byte.
ghost use Rattle.std.specs.Prelude.{◌<◌, ◌^◌, length, IfOk};
ghost use Rattle.msc_tokens.specs.Spelling.{Spells};

use msc_base::Place;
use msc_tokens::{LexFault, Lexer, TokenList, lex_all};
use std::alloc::Global;
use std::test::Fail;

/// The tokens of a text that comes byte by byte, or its first fault.
fn lex_bytewise(alloc: Global, text: &[u8]) -> Result<TokenList, LexFault>
    requires { length text.now < 2 ^ 63 }
    ensures { IfOk result (λ list. Spells text.now list.tokens) }
{
    let mut lexer = Lexer::new(alloc)?;
    for byte in text {
        if lexer.feed(&[*byte]).is_err() {
            return lexer.finish();
        }
    }
    lexer.finish()
}

/// All marks, a string, a note and the lines.
#[test]
fn marks(rt: HostRuntime) -> Result<(), Fail> {
    let alloc = rt.alloc();
    let text = "a:=b<<c>>d;e:f,g(h)i<j>k[l]m@n&o=p:==<<<>>>\n/* it's **/ 'it''s'q";
    let want = [
        "a", ":=", "b", "<<", "c", ">>", "d", ";", "e", ":", "f", ",", "g", "(", "h", ")", "i",
        "<", "j", ">", "k", "[", "l", "]", "m", "@", "n", "&", "o", "=", "p", ":=", "=", "<<", "<",
        ">>", ">", "'it''s'", "q",
    ];
    for read in [
        lex_all(alloc, text.as_bytes()),
        lex_bytewise(alloc, text.as_bytes()),
    ] {
        let Ok(list) = read else {
            assert!(rt; false, "a fault");
            return Ok(());
        };
        assert_eq!(rt; list.len(), 39);
        for (token, part) in list.as_slice().iter().zip(want) {
            assert_eq!(rt; token.bytes.bytes(), part.as_bytes());
        }
        let end = Place {
            byte: 64,
            line: 2,
            column: 21,
        };
        assert_eq!(rt; list.end_place(), end);
    }
    Ok(())
}
