//! Cases of terms, formulas, their texts, linear forms and the linear machine. Each line of the input is a case, and gets
//! one line of output.
//!
//! The input is standard input, or the file that the one word of the command line names. A line is a kind and its words, as
//! `case_lines` has them; an empty line, and one that begins with `#`, is written as it is. Terms, formulas and sorts are
//! given and written as their texts, a text of more than 300 bytes as the number of its bytes.
//!
//! | Case | Answer |
//! |---|---|
//! | `term t`, `formula F`, `sort S` | the text of what is read, or `bad text at` and the first bad byte |
//! | `number TEXT LEAST MOST` | the number from LEAST to MOST at the start of the text, and where it ends |
//! | `word TEXT WORD` | where the word at the start of the text ends |
//! | `precedes t u` | whether the text of t is the lesser one |
//! | `same_term t u`, `same_formula F G`, `same_sort S S` | whether they are the same |
//! | `copy_term t`, `copy_formula F`, `copy_sort S` | the text of a copy, and whether it is the same |
//! | `constant F`, `nameless F` | whether F has no names and no free variables; no names |
//! | `truth F` | the truth of a constant formula |
//! | `negate F`, `put F t` | the negation of F; F with t for its outermost variable |
//! | `negate_under N F`, `put_under N F t` | the same of F within N times `(and _ T)` |
//! | `form t`, `tighten t` | the linear form of t: its constant, and each part as coefficient `*` variable; the same tightened |
//! | `add_scaled t m u n` | m times the form of t plus n times that of u |
//! | `gcd a b`, `floor a b` | the greatest common divisor of the absolute values; a divided by b above 0, rounded down |
//! | `decide BUDGET t ..` | whether the forms of the terms can all be at least 0, and the budget that is left |
//!
//! `starved` is want of memory, and stands for too many levels, too; `not read` is the same for a word of the case.
#![tactic(auto)]

mod answers;
mod changes;
mod forms;
mod kind;
mod machine;
mod reading;
mod truths;

use answers::answer;
use case_lines::cases;
use std::io;

fn main(rt: HostRuntime) -> io::Result<()> {
    let text = cases(&rt)?;
    for line in text.lines() {
        rt.println(answer(rt.alloc(), line)?)?;
    }
    Ok(())
}
