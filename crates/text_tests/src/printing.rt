//! Tests of `loop_parse` and `loop_print`.
ghost use Rattle.std.specs.Prelude.{◌≡◌, Ok, IfSome};
ghost use Rattle.loop_lex.specs.Tokens.{tokens as tokens_of};
ghost use Rattle.loop_print.specs.ReadBack.{HasSource};

use loop_grammar::Tree;
use loop_lex::{Token, lex};
use loop_parse::{ParseError, parse};
use loop_print::print;
use std::alloc::{AllocError, Global};
use std::test::Fail;

fn tree_of_tokens(alloc: Global, source: &[u8], tokens: &[Token]) -> Option<Tree>
    requires { tokens_of source.now ≡ Ok tokens.now }
    ensures { IfSome result HasSource }
{
    match parse(alloc, source, tokens) {
        Ok(tree) => Some(tree),
        Err(_) => None,
    }
}

// The source's tree, if it has one.
fn tree_of(alloc: Global, source: &[u8]) -> Option<Tree>
    ensures { IfSome result HasSource }
{
    if source.len() > u32::MAX as usize {
        return None;
    }
    match lex(alloc, source) {
        Ok(tokens) => tree_of_tokens(alloc, source, &tokens),
        Err(_) => None,
    }
}

// What is printed of the source's tree, if it has one.
fn printed(alloc: Global, source: &[u8]) -> Option<Vec<u8>> {
    let tree = tree_of(alloc, source)?;
    let text = print(alloc, &tree);
    drop(tree);
    text.ok()
}

// Whether this text is printed of the source's tree.
fn prints(alloc: Global, source: &[u8], text: &[u8]) -> bool {
    match printed(alloc, source) {
        Some(found) => found.as_slice() == text,
        None => false,
    }
}

fn word(bytes: &[u8], token: Token) -> Option<&[u8]> {
    bytes.get(token.start as usize..token.end as usize)
}

// Whether both have the same tokens, one by one, and with them the same tree.
fn have_same_tokens(alloc: Global, source: &[u8], text: &[u8]) -> Result<bool, Fail> {
    if source.len() > u32::MAX as usize || text.len() > u32::MAX as usize {
        return Err(Fail::new("a text is long"));
    }
    let (own, other) = (lex(alloc, source)?, lex(alloc, text)?);
    Ok(
        own.len() == other.len()
            && own
                .iter()
                .zip(&other)
                .all(|(a, b)| word(source, *a) == word(text, *b)),
    )
}

// Sources, and what is printed of each, which has the source's tokens: no source has an `int`, or parentheses that it could do
// without.
static PRINTED: [(&[u8], &[u8]); 14] = [
    (b"", b""),
    (
        b"param N; in a[N]; out y[N]; for (i = 0; i < N; i++) y[i] = a[i*i];",
        b"param N ; in a [ N ] ; out y [ N ] ; for ( i = 0 ; i < N ; i ++ ) y [ i ] = a [ i * i ] ; ",
    ),
    (
        b"param N; in a[N]; out y[N]; for (i = 0; i < N; i++) y[i] = a[N*i];",
        b"param N ; in a [ N ] ; out y [ N ] ; for ( i = 0 ; i < N ; i ++ ) y [ i ] = a [ N * i ] ; ",
    ),
    (
        b"param N; in a[N]; out y[N]; for (i = 0; i < N; i++) if (a[i] > 0) y[i] = 1;",
        b"param N ; in a [ N ] ; out y [ N ] ; for ( i = 0 ; i < N ; i ++ ) if ( a [ i ] > 0 ) y [ i ] = 1 ; ",
    ),
    (
        b"param N; var a; for (i = 0; i < N; i++) a = i;",
        b"param N ; var a ; for ( i = 0 ; i < N ; i ++ ) a = i ; ",
    ),
    (b"var a; a = 0; a = 0; ", b"var a ; a = 0 ; a = 0 ; "),
    (
        b"param N; in x[N]; out y[N]; for (i = 0; i < N; i++) y[i] = x[i] + 1;",
        b"param N ; in x [ N ] ; out y [ N ] ; for ( i = 0 ; i < N ; i ++ ) y [ i ] = x [ i ] + 1 ; ",
    ),
    (
        b"param N; out y[N]; var s; for (i = 0; i < N; i++) { s = s + i; y[i] = s; }",
        b"param N ; out y [ N ] ; var s ; for ( i = 0 ; i < N ; i ++ ) { s = s + i ; y [ i ] = s ; } ",
    ),
    (
        b"param N; in x[N]; out y[N]; var a[N]; for (i = 0; i < N; i++) a[2*i] = x[i]; for (i = 0; i < N; i++) y[i] = a[i];",
        b"param N ; in x [ N ] ; out y [ N ] ; var a [ N ] ; for ( i = 0 ; i < N ; i ++ ) a [ 2 * i ] = x [ i ] ; for ( i = 0 ; i < N ; i ++ ) y [ i ] = a [ i ] ; ",
    ),
    (
        b"param N; in A[N][N], B[N][N]; out C[N][N]; for (i = 0; i < N; i++) for (j = 0; j < N; j++) { C[i][j] = 0; for (k = 0; k < N; k++) C[i][j] = C[i][j] + A[i][k] * B[k][j]; }",
        b"param N ; in A [ N ] [ N ] , B [ N ] [ N ] ; out C [ N ] [ N ] ; for ( i = 0 ; i < N ; i ++ ) for ( j = 0 ; j < N ; j ++ ) { C [ i ] [ j ] = 0 ; for ( k = 0 ; k < N ; k ++ ) C [ i ] [ j ] = C [ i ] [ j ] + A [ i ] [ k ] * B [ k ] [ j ] ; } ",
    ),
    (
        b"var a; for (i = 0; i < 3; i++) if (i == 1) { a = 1; } else { a = 2; }",
        b"var a ; for ( i = 0 ; i < 3 ; i ++ ) if ( i == 1 ) { a = 1 ; } else { a = 2 ; } ",
    ),
    (
        b"param N; in x[N]; out y[N]; for (i = 0; i < N; i += 2) y[i] = x[i];",
        b"param N ; in x [ N ] ; out y [ N ] ; for ( i = 0 ; i < N ; i += 2 ) y [ i ] = x [ i ] ; ",
    ),
    (
        b"out y; for (i = 1; i <= 8; i += 3) y = y + i;",
        b"out y ; for ( i = 1 ; i <= 8 ; i += 3 ) y = y + i ; ",
    ),
    (b"{ { } a = 1; }", b"{ { } a = 1 ; } "),
];

// Sources of which a text with other tokens is printed.
static OTHERWISE: [(&[u8], &[u8]); 9] = [
    (
        b"out y; var a; for (int i = max(0, 2); i <= min(5, 3); ++i) { if (i >= 3) { a = a + i; } else { a = 10; } } y = -a * min(2, 7);",
        b"out y ; var a ; for ( i = max ( 0 , 2 ) ; i <= min ( 5 , 3 ) ; i ++ ) { if ( i >= 3 ) { a = a + i ; } else { a = 10 ; } } y = - a * min ( 2 , 7 ) ; ",
    ),
    (
        b"for (i = 0; i < 9; i += (N + 1) * (2)) for (j = 0; j < i; j += 1) { }",
        b"for ( i = 0 ; i < 9 ; i += ( N + 1 ) * 2 ) for ( j = 0 ; j < i ; j += 1 ) { } ",
    ),
    (b"inout q[ 007 ];", b"inout q [ 7 ] ; "),
    (
        b"for (int i = (0); j <= max((1)); ++k) { }",
        b"for ( i = 0 ; j <= 1 ; k ++ ) { } ",
    ),
    (
        b"if (1 <= 2 && (a) >= (b + c)) { } else if (1 > -2) a = 1;",
        b"if ( 1 <= 2 && a >= b + c ) { } else if ( 1 > - 2 ) a = 1 ; ",
    ),
    (
        b"a = (b + c) * d - (e - (f * g));",
        b"a = ( b + c ) * d - ( e - f * g ) ; ",
    ),
    (
        b"a = b * (c * d) * -(e * f) + (g);",
        b"a = b * ( c * d ) * - ( e * f ) + g ; ",
    ),
    (
        b"a[(1 + 2)][-3] = - - min(1, (2 + 3), max(4, 5));",
        b"a [ 1 + 2 ] [ - 3 ] = - - min ( 1 , 2 + 3 , max ( 4 , 5 ) ) ; ",
    ),
    (
        b"a = 9223372036854775807 + min((b + 1)) * 2;",
        b"a = 9223372036854775807 + ( b + 1 ) * 2 ; ",
    ),
];

#[test]
fn sources_are_printed_and_read_back(rt: HostRuntime) -> Result<(), Fail> {
    let alloc = rt.alloc();
    for (source, text) in &PRINTED {
        assert!(rt; prints(alloc, source, text) && prints(alloc, text, text));
        assert!(rt; have_same_tokens(alloc, source, text)?);
    }
    for (source, text) in &OTHERWISE {
        assert!(rt; prints(alloc, source, text) && prints(alloc, text, text));
    }
    // as many statements as processes, and one more
    for times in [64, 65] {
        let source = repeated(alloc, b"var a; ", b"a = 0; ", times, b"")?;
        let text = repeated(alloc, b"var a ; ", b"a = 0 ; ", times, b"")?;
        assert!(rt; prints(alloc, &source, &text) && prints(alloc, &text, &text));
        assert!(rt; have_same_tokens(alloc, &source, &text)?);
    }
    Ok(())
}

// The source with `head`, so many times `part`, and `tail`.
fn repeated(
    alloc: Global,
    head: &[u8],
    part: &[u8],
    times: u32,
    tail: &[u8],
) -> Result<Vec<u8>, AllocError> {
    let mut source = Vec::from_slice(alloc, head)?;
    for _ in 0..times {
        source.extend_from_slice(part)?;
    }
    source.extend_from_slice(tail)?;
    Ok(source)
}

// A source with `head`, so many times `open`, `middle`, as many times `close`, and `tail`.
static DEEP: [(&[u8], &[u8], u32, &[u8], &[u8], &[u8]); 10] = [
    (b"a = ", b"-", 8188, b"1", b"", b";"),
    (b"a = 1", b"+1", 4094, b"", b"", b";"),
    (b"a = ", b"(", 4094, b"1", b")", b";"),
    (b"a = ", b"1-(", 2047, b"1", b")", b";"),
    (b"", b"{", 4096, b"", b"}", b""),
    (b"a = ", b"a[", 2729, b"1", b"]", b";"),
    (b"", b"if(1<2)", 1364, b"a=1;", b"", b""),
    (b"a = ", b"max(1,", 1637, b"1", b")", b";"),
    (b"for(i=0;i<1;i+=", b"-", 8176, b"1", b"", b"){}"),
    (b"for(i=0;i<1;i+=", b"1-(", 2044, b"1", b")", b"){}"),
];

// Sources of nearly as many tokens as there may be, as deep as they can nest.
#[test]
fn deep_sources_are_read_back(rt: HostRuntime) -> Result<(), Fail> {
    let alloc = rt.alloc();
    for (head, open, times, middle, close, tail) in &DEEP {
        let front = repeated(alloc, head, open, *times, middle)?;
        let source = repeated(alloc, front.as_slice(), close, *times, tail)?;
        let Some(text) = printed(alloc, source.as_slice()) else {
            return Err(Fail::new("nothing is printed"));
        };
        assert!(rt; prints(alloc, text.as_slice(), text.as_slice()));
    }
    Ok(())
}

// At which token the source is refused, if it is.
fn stop(alloc: Global, source: &[u8]) -> Result<Option<u32>, Fail> {
    if source.len() > u32::MAX as usize {
        return Err(Fail::new("the source is long"));
    }
    let tokens = lex(alloc, source)?;
    match parse(alloc, source, &tokens) {
        Ok(tree) => {
            drop(tree);
            Ok(None)
        }
        Err(ParseError::Syntax(token)) => Ok(Some(token)),
        Err(ParseError::Memory) => Err(Fail::new("want of memory")),
    }
}

static OPEN: [(&[u8], &[u8], u32, &[u8], Option<u32>); 15] = [
    (b"a =", b"(", 8190, b"", Some(8192)),
    (b"a =", b"-", 8188, b"1;", None),
    (b"", b"{", 8192, b"", Some(8192)),
    (b"", b"a[", 4096, b"", Some(8192)),
    (b"a = ", b"a[", 4095, b"", Some(8192)),
    (b"a = ", b"1+", 4094, b"1;", None),
    (b"a = ", b"1*", 4094, b"1;", None),
    (b"", b"if(1<2)", 1365, b"", Some(8190)),
    (b"", b"if(1<2){}else ", 819, b"", Some(7371)),
    (b"a = ", b"max(", 4095, b"", Some(8192)),
    (b"a = max(", b"1,", 4092, b"1);", None),
    (b"", b"for(i=0;i<1;i++)", 630, b"a", Some(8191)),
    (b"", b"for(i=0;i<1;i+=2)", 585, b"a", Some(8191)),
    (b"for(i=0;i<1;i+=", b"(", 8180, b"", Some(8192)),
    (b"for(i=0;i<1;i+=", b"-", 8176, b"1){}", None),
];

#[test]
fn deep_sources_are_read(rt: HostRuntime) -> Result<(), Fail> {
    for (head, part, times, tail, place) in &OPEN {
        let source = repeated(rt.alloc(), head, part, *times, tail)?;
        assert!(rt; stop(rt.alloc(), &source)? == *place);
    }
    Ok(())
}
