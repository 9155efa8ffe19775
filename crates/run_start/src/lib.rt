// A fresh round, and `start`.

#![tactic(auto)]

ghost use Rattle.std.specs.Prelude.{◌≡◌, ◌+◌, ◌≤◌, ◌<◌, length, replicate};
ghost use Rattle.format_layout.specs.Round.{call_result};
ghost use Rattle.run_start.specs.Start.{cleared, stored, image, values_in, start_on};
ghost use Rattle.format_layout.specs.Sizes.{round_bytes, round_words, table_bytes};
ghost use Rattle.spec_language.specs.Limits.{behaviour_limit};

use format_layout::round::Round;
use format_layout::table;
use spec_language::{limits, refusals};

// The words of a round become 0.
fn clear(round: &mut [u8])
    requires { round_bytes ≤ length round.old }
    ensures { round.new ≡ cleared round.old round_words }
{
    round[..Round::BYTES].fill(0);
}

fn put_store(round: &mut [u8], store: &[u32; limits::BEHAVIOURS])
    requires { round_bytes ≤ length round.old }
    ensures { round.new ≡ stored store.now round.old behaviour_limit }
{
    for i in 0..limits::BEHAVIOURS {
        lib_word::put_word(round, Round::STORE + i, store[i]);
    }
}

// The round's bytes. Those beyond are as they were.
fn write_round(fresh: Round, round: &mut [u8])
    requires { round_bytes ≤ length round.old }
    ensures { round.new ≡ image fresh round.old }
{
    clear(round);
    lib_word::put_word(round, Round::TAKEN, fresh.taken);
    lib_word::put_word(round, Round::WAITING, fresh.waiting);
    lib_word::put_word(round, Round::RUNNING, fresh.running);
    put_store(round, &fresh.store);
}

// The values of a fresh round, as compile left them in the table.
fn first_values(table: &[u8]) -> [u32; limits::BEHAVIOURS]
    requires { table_bytes ≤ length table.now }
    ensures { result ≡ values_in table.now (replicate behaviour_limit 0) behaviour_limit }
{
    let mut store = [0u32; limits::BEHAVIOURS];
    for i in 0..limits::BEHAVIOURS {
        store[i] = lib_word::get_word(table, table::VALUES + i);
    }
    store
}

// A fresh round of the program whose table is lent. 0, or 14 where the table is foreign or the round too short.
pub fn start_round(table: &[u8], round: &mut [u8]) -> u32
    ensures { call_result result round.new ≡ start_on table.now round.old }
{
    if !format_layout::table_fits(&*table) {
        return refusals::FOREIGN;
    }
    if round.len() < Round::BYTES {
        return refusals::FOREIGN;
    }
    write_round(Round::fresh(first_values(table)), round);
    0
}
