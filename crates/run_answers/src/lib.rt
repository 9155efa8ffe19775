// Answers of eight bytes, one after the other in a lent buffer.

#![tactic(auto)]

ghost use Rattle.std.specs.Prelude.{◌≡◌, ◌+◌, ◌*◌, ◌≤◌, ◌<◌, length};
ghost use Rattle.run_answers.specs.Answers.{put_answer};
ghost use Rattle.run_answers.specs.Sizes.{answer_bytes, answer_limit};

// The bytes of an answer.
pub const ANSWER_BYTES: usize = 8;

// An answer at place n, in two words.
pub fn put_answer(answers: &mut [u8], n: usize, answer: u64)
    requires { (n * answer_bytes + answer_bytes ≤ length answers.old) × (n < answer_limit) }
    ensures { answers.new ≡ put_answer answers.old n answer }
{
    lib_word::put_word(answers, n * 2, (answer / lib_word::WORD_VALUES) as u32);
    lib_word::put_word(answers, n * 2 + 1, (answer % lib_word::WORD_VALUES) as u32);
}
