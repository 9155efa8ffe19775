// Who may send an event and who may see a behaviour: one bit of a word in the table.

#![tactic(auto)]

ghost use Rattle.std.specs.Prelude.{◌≡◌, ◌≤◌, ◌<◌, length};
ghost use Rattle.spec_language.specs.Rights.{may};
ghost use Rattle.format_layout.specs.Layout.{viewers_at, senders_at};
ghost use Rattle.format_layout.specs.Sizes.{table_bytes};
ghost use Rattle.spec_language.specs.Limits.{behaviour_limit, event_limit, player_limit};

use format_layout::table;

// Whether a player is permitted by a word with a bit for each; the host always is.
fn is_permitted(word: u32, player: u32) -> bool
    requires { player < player_limit }
    ensures { result ≡ may word player }
{
    player == 0 || (word >> player) % 2 == 1
}

// Whether a player may send an event.
pub fn may_send(table: &[u8], event: u32, player: u32) -> bool
    requires { (table_bytes ≤ length table.now) × (event < event_limit) × (player < player_limit) }
    ensures { result ≡ may (senders_at table.now event) player }
{
    is_permitted(
        lib_word::get_word(table, table::SENDERS + (event as usize)),
        player,
    )
}

// Whether a player may see a behaviour.
pub fn may_see(table: &[u8], behaviour: u32, player: u32) -> bool
    requires { (table_bytes ≤ length table.now) × (behaviour < behaviour_limit) × (player < player_limit) }
    ensures { result ≡ may (viewers_at table.now behaviour) player }
{
    is_permitted(
        lib_word::get_word(table, table::VIEWERS + (behaviour as usize)),
        player,
    )
}
