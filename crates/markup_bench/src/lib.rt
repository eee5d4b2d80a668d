// The first pass over a text, exported for bench/markup to time and for tests/markup to try.
#![tactic(auto)]

ghost use Rattle.std.specs.Prelude.{◌≡◌};
ghost use Rattle.rules.specs.Basics.{is_some};
ghost use Rattle.rules.specs.Markup.{document};
ghost use Rattle.markup_bench.specs.Answer.{number};

// Whether a text is a document: 1 if it is, else 0.
#[unsafe(no_mangle)]
pub extern "C" fn markup_bench_is_document(s: &[u8]) -> u64
    ensures { result ≡ number (is_some (document s.now)) }
{
    if markup::is_document(s) {
        return 1;
    }
    0
}
