//! The tokens of a text.

ghost use Rattle.std.specs.Prelude.{◌≡◌, ◌≢◌, ◌<◌, ◌^◌, All, Err, Ok, IfErr, IfOk, length};
ghost use Rattle.ada_text.specs.Tokens.{AreInOrder, StandsIn, tokens_in};

use crate::bytes::{is_blank, skipped};
use crate::item::item_at;
use crate::token::{LexFault, Span, Token, TokenList};
use std::alloc::Global;

/// The tokens of a text of fewer than 2^32 bytes. `BadByte`, `BadNumber` and `TooWide` are the first fault of the
/// text, and `Starved` comes where memory was refused. The spans are in order.
pub fn tokens(alloc: Global, text: &[u8]) -> Result<TokenList, LexFault>
    requires { length text.now < 2 ^ 32 }
    ensures ok { IfOk result (λ found. tokens_in text.now ≡ Ok found) }
    ensures order { IfOk result (λ found. AreInOrder 0 found (length text.now)) }
    ensures each { IfOk result (λ found. All (StandsIn text.now) found) }
    ensures fault { IfErr result (λ fault. fault ≢ LexFault.Starved → tokens_in text.now ≡ Err fault) }
{
    let mut found = TokenList::new(alloc);
    let mut at = skipped(text);
    while at < text.len() {
        if is_blank(text[at]) {
            at += 1;
            continue;
        }
        let item = item_at(at as u32, &text[at..])?;
        let end = at + item.length;
        if let Some(kind) = item.kind {
            let span = Span {
                from: at as u32,
                to: end as u32,
            };
            found.push(Token { kind, span })?;
        }
        at = end;
    }
    Ok(found)
}
