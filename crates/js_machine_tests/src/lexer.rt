//! The lexical grammar, against ECMA-262.

use crate::answers::{Question, answers};
use js_lexer::number::number_value;
use js_lexer::strings::string_value;
use js_lexer::token::{BadToken, Token, TokenKind};
use js_lexer::tokens::Tokens;
use std::alloc::{AllocError, Global};
use std::test::Fail;

/// Sources, and their tokens as `KIND@START`, with `!` behind a token that has a line terminator before it, and
/// `bad@AT` for a bad token.
const TOKENS: [(&str, &str); 76] = [
    // the end, and places behind a CR LF
    ("", ""),
    (" ", ""),
    ("a\r\nb", "Name@0 Name@3!"),
    // longest tokens
    ("+++", "Increment@0 Plus@2"),
    ("a>>>=b", "Name@0 UnsignedRightShiftAssign@1 Name@5"),
    (">>>>", "UnsignedRightShift@0 GreaterThan@3"),
    ("a<=b", "Name@0 LessThanOrEqual@1 Name@3"),
    ("====>", "StrictEqual@0 Arrow@3"),
    ("!===", "StrictNotEqual@0 Assign@3"),
    ("|||", "LogicalOr@0 BitwiseOr@2"),
    ("let lets let1 $let", "Let@0 Name@4 Name@9 Name@14"),
    ("a.in", "Name@0 Dot@1 In@2"),
    // comments, one of which isn't closed
    ("a/*x", "Name@0 bad@1"),
    ("a/*/", "Name@0 bad@1"),
    ("/**/a", "Name@4"),
    ("a/***/b", "Name@0 Name@6"),
    ("a/*\n*/b", "Name@0 Name@6!"),
    ("a/*\u{2029}*/ b", "Name@0 Name@7!"),
    ("a//x\u{2028}b", "Name@0 Name@5!"),
    ("a//x\rb", "Name@0 Name@5!"),
    ("//", ""),
    ("a / /b/", "Name@0 Divide@2 Divide@4 Name@5 Divide@6"),
    ("a/=b", "Name@0 DivideAssign@1 Name@3"),
    ("// /*\n/*//*/a", "Name@12!"),
    // white space and line terminators
    ("\u{FEFF}\u{A0}\u{3000}\u{2003}\ta", "Name@5"),
    ("\u{2028}a", "Name@1!"),
    ("\u{180E}", "bad@0"),
    // numbers
    (
        "0 7 10 0b10 0O17 0xfF",
        "Number@0 Number@2 Number@4 Number@7 Number@12 Number@17",
    ),
    ("1 .x", "Number@0 Dot@2 Name@3"),
    ("(1)", "LeftParenthesis@0 Number@1 RightParenthesis@2"),
    ("0x1FFFFFFFFFFFFF", "Number@0"),
    ("08", "bad@0"),
    ("1.5", "bad@0"),
    ("1.", "bad@0"),
    ("9007199254740992", "bad@0"),
    ("0x20000000000000", "bad@0"),
    ("x 00", "Name@0 bad@2"),
    ("0x", "bad@0"),
    ("0b2", "bad@0"),
    ("0o8", "bad@0"),
    ("0x1g", "bad@0"),
    ("1a b", "bad@0"),
    ("1_0", "bad@0"),
    ("1e3", "bad@0"),
    ("1n", "bad@0"),
    // strings
    ("'a' \"b\"", "String@0 String@4"),
    ("'it\"s' \"it's\"", "String@0 String@7"),
    ("''", "String@0"),
    ("'\u{2028}\u{2029}'", "String@0"),
    ("'\\'' 'b'", "String@0 String@5"),
    ("'\\\r\n' a", "String@0 Name@6"),
    ("'a", "bad@0"),
    ("'a\"", "bad@0"),
    ("x 'a\nb'", "Name@0 bad@2"),
    ("'a\rb'", "bad@0"),
    ("'\\", "bad@0"),
    ("'\\'", "bad@0"),
    ("'\\1'", "bad@0"),
    ("'\\8'", "bad@0"),
    ("'\\01'", "bad@0"),
    ("'\\0a'", "String@0"),
    ("'\\x4'", "bad@0"),
    ("'\\xg0'", "bad@0"),
    ("'\\u12'", "bad@0"),
    ("'\\u{}'", "bad@0"),
    ("'\\u{41'", "bad@0"),
    ("'\\u{110000}'", "bad@0"),
    ("'\\u{0010FFFF}'", "String@0"),
    // nothing begins
    ("#", "bad@0"),
    ("a.b`", "Name@0 Dot@1 Name@2 bad@3"),
    ("\\u0061", "bad@0"),
    ("é", "bad@0"),
    ("@ a", "bad@0"),
    // each spelling
    (
        "break case catch class const continue debugger default delete do else enum export extends false \
        finally for function if import in instanceof new null return super switch this throw true try \
        typeof var void while with let static implements interface package private protected public \
        yield await eval arguments",
        "Break@0 Case@6 Catch@11 Class@17 Const@23 Continue@29 Debugger@38 Default@47 Delete@55 Do@62 \
        Else@65 Enum@70 Export@75 Extends@82 False@90 Finally@96 For@104 Function@108 If@117 Import@120 \
        In@127 Instanceof@130 New@141 Null@145 Return@150 Super@157 Switch@163 This@170 Throw@175 \
        True@181 Try@186 Typeof@190 Var@197 Void@201 While@206 With@212 Let@217 Static@221 \
        Implements@228 Interface@239 Package@249 Private@257 Protected@265 Public@275 Yield@282 \
        Await@288 Eval@294 Arguments@299",
    ),
    (
        "{ } ( ) [ ] . ; , < > <= >= == != === !== + - * / % ++ -- << >> >>> & | ^ ! ~ && || ? : = += -= \
        *= /= %= <<= >>= >>>= &= |= ^= =>",
        "LeftBrace@0 RightBrace@2 LeftParenthesis@4 RightParenthesis@6 LeftBracket@8 RightBracket@10 \
        Dot@12 Semicolon@14 Comma@16 LessThan@18 GreaterThan@20 LessThanOrEqual@22 \
        GreaterThanOrEqual@25 Equal@28 NotEqual@31 StrictEqual@34 StrictNotEqual@38 Plus@42 Minus@44 \
        Multiply@46 Divide@48 Remainder@50 Increment@52 Decrement@55 LeftShift@58 RightShift@61 \
        UnsignedRightShift@64 BitwiseAnd@68 BitwiseOr@70 BitwiseXor@72 LogicalNot@74 BitwiseNot@76 \
        LogicalAnd@78 LogicalOr@81 Question@84 Colon@86 Assign@88 AddAssign@90 SubtractAssign@93 \
        MultiplyAssign@96 DivideAssign@99 RemainderAssign@102 LeftShiftAssign@105 RightShiftAssign@109 \
        UnsignedRightShiftAssign@113 BitwiseAndAssign@118 BitwiseOrAssign@121 BitwiseXorAssign@124 \
        Arrow@127",
    ),
    // a file
    (
        "// Sums the elements of a list.\n\
        let total = 0, names = { \"first\": [1, 0x2A], last: null };\n\
        function add(list, limit) {\n\
        \x20 for (let i = 0; i < list.length; i++) {\n\
        \x20   if (list[i] >= limit && i !== 0 || !limit) continue; /* skip\n\
        \x20   it */ total += list[i] * 2;\n\
        \x20 }\n\
        \x20 return list.length === 0 ? 'none' : () => total >>> 1;\n\
        }\n\
        try {\n\
        \x20 console.log(add(names.first, -1)(), \"it\\'s\\u{21}\");\n\
        } catch (e) {\n\
        \x20 throw e; // again\n\
        } finally { delete names.last }\n",
        "Let@32! Name@36 Assign@42 Number@44 Comma@45 Name@47 Assign@53 LeftBrace@55 String@57 \
        Colon@64 LeftBracket@66 Number@67 Comma@68 Number@70 RightBracket@74 Comma@75 Name@77 \
        Colon@81 Null@83 RightBrace@88 Semicolon@89 Function@91! Name@100 LeftParenthesis@103 \
        Name@104 Comma@108 Name@110 RightParenthesis@115 LeftBrace@117 For@121! LeftParenthesis@125 \
        Let@126 Name@130 Assign@132 Number@134 Semicolon@135 Name@137 LessThan@139 Name@141 Dot@145 \
        Name@146 Semicolon@152 Name@154 Increment@155 RightParenthesis@157 LeftBrace@159 If@165! \
        LeftParenthesis@168 Name@169 LeftBracket@173 Name@174 RightBracket@175 \
        GreaterThanOrEqual@177 Name@180 LogicalAnd@186 Name@189 StrictNotEqual@191 Number@195 \
        LogicalOr@197 LogicalNot@200 Name@201 RightParenthesis@206 Continue@208 Semicolon@216 \
        Name@236! AddAssign@242 Name@245 LeftBracket@249 Name@250 RightBracket@251 Multiply@253 \
        Number@255 Semicolon@256 RightBrace@260! Return@264! Name@271 Dot@275 Name@276 \
        StrictEqual@283 Number@287 Question@289 String@291 Colon@298 LeftParenthesis@300 \
        RightParenthesis@301 Arrow@303 Name@306 UnsignedRightShift@312 Number@316 Semicolon@317 \
        RightBrace@319! Try@321! LeftBrace@325 Name@329! Dot@336 Name@337 LeftParenthesis@340 \
        Name@341 LeftParenthesis@344 Name@345 Dot@350 Name@351 Comma@356 Minus@358 Number@359 \
        RightParenthesis@360 LeftParenthesis@361 RightParenthesis@362 Comma@363 String@365 \
        RightParenthesis@378 Semicolon@379 RightBrace@381! Catch@383 LeftParenthesis@389 Name@390 \
        RightParenthesis@391 LeftBrace@393 Throw@397! Name@403 Semicolon@404 RightBrace@415! \
        Finally@417 LeftBrace@425 Delete@427 Name@434 Dot@439 Name@440 RightBrace@445",
    ),
];

/// Numbers, and their values.
const NUMBERS: [(&str, &str); 10] = [
    ("0", "0"),
    ("42", "42"),
    ("0x1F", "31"),
    ("0XabCDef", "11259375"),
    ("0b101", "5"),
    ("0B11111111", "255"),
    ("0o17", "15"),
    ("0O777", "511"),
    ("9007199254740991", "9007199254740991"),
    ("0x1FFFFFFFFFFFFF", "9007199254740991"),
];

/// Strings, and the units of their values with a space between two.
const STRINGS: [(&str, &str); 14] = [
    ("''", ""),
    ("'\\n\\t\\r\\b\\f\\v'", "10 9 13 8 12 11"),
    ("'\\0'", "0"),
    ("'\\0a'", "0 97"),
    ("'\\x41\\xe9'", "65 233"),
    ("'\\u00E9\\uD83D'", "233 55357"),
    ("'\\u{1F600}'", "55357 56832"),
    (
        "'\\u{41}\\u{D800}\\u{FFFF}\\u{10000}\\u{10FFFF}'",
        "65 55296 65535 55296 56320 56319 57343",
    ),
    ("'a\\\nb'", "97 98"),
    ("'a\\\r\nb'", "97 98"),
    ("'a\\\rb\\\u{2028}\\\u{2029}'", "97 98"),
    ("'\\'\\\"\\\\\\q\\$'", "39 34 92 113 36"),
    ("\"'\u{2029}\"", "39 8233"),
    ("'😀\\😀'", "55357 56832 55357 56832"),
];

/// The tokens of a source as the table has them.
pub(crate) fn tokens_of(alloc: Global, source: &[u16]) -> Result<String, AllocError> {
    let mut all = String::new(alloc);
    for item in Tokens::new(source) {
        if !all.is_empty() {
            all.push(' ')?;
        }
        all.push_str(&shown(alloc, item)?)?;
    }
    Ok(all)
}

/// A token, or the place of a bad one, as the table has it.
fn shown(alloc: Global, item: Result<Token<'_>, BadToken>) -> Result<String, AllocError> {
    match item {
        Ok(token) if token.newline_before => format!(in alloc; "{:?}@{}!", token.kind, token.start),
        Ok(token) => format!(in alloc; "{:?}@{}", token.kind, token.start),
        Err(bad) => format!(in alloc; "bad@{}", bad.at),
    }
}

/// The value of the number or of the string that a source is.
pub(crate) fn value_of(alloc: Global, source: &[u16]) -> Result<String, AllocError> {
    match Tokens::new(source).next() {
        Some(Ok(token)) if token.text.len() == source.len() => value_of_token(alloc, token),
        _ => String::from_str(alloc, "no token"),
    }
}

/// The value of a number, or the units of a string.
fn value_of_token(alloc: Global, token: Token<'_>) -> Result<String, AllocError> {
    if token.kind == TokenKind::Number {
        return format!(in alloc; "{}", number_value(token.text));
    }
    let units = string_value(alloc, token.text)?;
    spaced(alloc, units.as_slice())
}

/// Numbers with a space between two.
fn spaced(alloc: Global, numbers: &[u16]) -> Result<String, AllocError> {
    let mut all = String::new(alloc);
    for number in numbers {
        if !all.is_empty() {
            all.push(' ')?;
        }
        all.push_str(&format!(in alloc; "{number}")?)?;
    }
    Ok(all)
}

#[test]
fn reads_tokens(rt: HostRuntime) -> Result<(), Fail> {
    answers(&rt, rt.alloc(), Question::Tokens, &TOKENS)?;
    answers(&rt, rt.alloc(), Question::Value, &NUMBERS)?;
    answers(&rt, rt.alloc(), Question::Value, &STRINGS)
}
