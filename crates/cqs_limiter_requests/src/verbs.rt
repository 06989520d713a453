//! A request as a line.

ghost use Rattle.std.specs.Prelude.{◌≡◌, ◌≢◌, ◌∷◌, [], MatchOption};
ghost use Rattle.std.specs.Str.{bytes_eq};
ghost use Rattle.cqs_limiter_requests.specs.Lines.{ask_verb, IsLineOf};
ghost use Rattle.cqs_limiter_requests.specs.declared.asks.Ask.{Ask};

use crate::asks::{Ask, Line};
use cqs_lines::Form;

/// The form of the lines behind the first, where there are so many tenants.
#[derive(Clone, Copy)]
pub struct LineForm {
    pub tenants: u32,
}

impl Form for LineForm {
    type Item = Line;

    ghost use Rattle.cqs_limiter_requests.specs.Lines.{line_says, IsLineFor};
    ghost use Rattle.cqs_limiter_requests.specs.LineLaws.{request_is_line};

    ghost says = { line_says };

    ghost fits = { λ form line. IsLineFor form.tenants line };

    fn item(&self, verb: &[u8], numbers: &[u64]) -> Option<Line> {
        line_of(self.tenants, verb, numbers)
    }

    ghost clean = { λ form line fit. request_is_line form.tenants line fit };
}

/// The verb is this word.
pub(super) fn is(verb: &[u8], word: &str) -> bool
    ensures { result ≡ bytes_eq verb.now word.now }
{
    verb == word.as_bytes()
}

/// What this verb asks for.
fn ask_of(verb: &[u8]) -> Option<Ask>
    ensures { MatchOption result ((ask : Ask) → ask_verb ask ≢ verb.now)
        (λ ask. ask_verb ask ≡ verb.now) }
{
    if is(verb, "enter") {
        Some(Ask::Enter)
    } else if is(verb, "look") {
        Some(Ask::Look)
    } else if is(verb, "quit") {
        Some(Ask::Quit)
    } else if is(verb, "leave") {
        Some(Ask::Leave)
    } else {
        None
    }
}

/// The line of this verb, this tenant and this client.
fn of_two(tenants: u32, verb: &[u8], tenant: u64, client: u64) -> Option<Line>
    ensures { IsLineOf tenants verb.now (tenant ∷ client ∷ []) result }
{
    if tenant >= u64::from(tenants) || client > 4_294_967_295 {
        return None;
    }
    match ask_of(verb) {
        Some(ask) => Some(Line {
            tenant: tenant as u32,
            client: client as u32,
            ask,
        }),
        None => None,
    }
}

/// The line of these words.
fn line_of(tenants: u32, verb: &[u8], numbers: &[u64]) -> Option<Line>
    ensures { IsLineOf tenants verb.now numbers.now result }
{
    match numbers {
        [tenant, client] => of_two(tenants, verb, *tenant, *client),
        _ => None,
    }
}
