//! Cases of goals and certificates. Each line of the input is a case, and gets one line of output.
//!
//! The input is standard input, or the file that the one word of the command line names. A line is a kind and its words, as
//! `case_lines` has them; an empty line, and one that begins with `#`, is written as it is. Goals, certificates, their lines,
//! terms and formulas are given and written as their texts, a text of more than 300 bytes as the number of its bytes.
//!
//! | Case | Answer |
//! |---|---|
//! | `goal GOAL`, `cert CERT` | the text of what is read, or `bad text at` and the first bad byte |
//! | `copy GOAL`, `roles GOAL` | the text of a copy; of the goal with other roles and subprograms, which its text does not tell |
//! | `with GOAL` | `read`; the cases that follow are of this goal |
//! | `check CERT` | `accepted`, the first line that is not allowed with its rule, the first that is wide, or `no end` |
//! | `line LINE` | whether a certificate's only line is allowed, and its rule |
//! | `clause LINE` | the clause that the line's rule makes, whether its terms are well sorted or not, without `rup` and `lin` |
//! | `sort N t`, `number N t`, `formula N F` | the sort of t, with N new symbols; whether t is a number; whether F is well sorted |
//! | `follows LINE ..` | whether the last `rup` line follows from the clauses that the literals of the other `rup` lines are |
//!
//! `starved` is want of memory, and stands for too many levels, too; `not read` is the same for a word of the case.
#![tactic(auto)]

mod answers;
mod clauses;
mod goals;
mod judged;
mod kind;
mod sorts;
mod stored;
mod texts;

use answers::answer;
use case_lines::cases;
use goals::first_goal;
use std::io;

fn main(rt: HostRuntime) -> io::Result<()> {
    let text = cases(&rt)?;
    let mut goal = first_goal(rt.alloc())?;
    for line in text.lines() {
        rt.println(answer(rt.alloc(), &mut goal, line)?)?;
    }
    Ok(())
}
