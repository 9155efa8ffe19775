// The instructions of one behaviour on an event, written into the table from the draft (crate draft_form). An
// instruction is two words: operation * 256 + slot, and a constant (crate format_image).

#![tactic(auto)]

ghost use Rattle.std.specs.Prelude.{◌≡◌, [], ◌∷◌, ◌+◌, ◌-◌, ◌<◌, ◌≤◌, length, replicate};
ghost use Rattle.format_layout.specs.Sizes.{table_bytes, table_length};
ghost use mathlib.Core.List.{flat_map};
ghost use Rattle.back_counts.specs.Counts.{EntriesInside};
ghost use Rattle.draft_form.specs.Draft.{moved};
ghost use Rattle.back_emit.specs.Words.{name_words, node_words, turn_words, turn_words_of_kind, move_words, member_words};
ghost use Rattle.back_emit.specs.Writing.{HasRoom, Emits};
ghost use Rattle.back_emit.specs.Opcodes.{defer_code, restore_code};
ghost use Rattle.spec_language.specs.Limits.{behaviour_limit};

use draft_form::{Draft, entry_kind, entry_of, layout, moved_node};
use lib_word::put_word;
use spec_language::limits;

pub mod opcodes;

// Above the numbers of the functions.
const FUNCTIONS: u32 = 16;

// The table, and the word of it that is written next.
#[derive(Drop)]
pub struct Emitter<'a> {
    pub table: &'a mut [u8],
    pub place: usize,
}

impl<'a> Emitter<'a> {
    // One word.
    pub fn word(&mut self, value: u32)
        requires { HasRoom self.old (value ∷ []) }
        ensures { Emits self.old (value ∷ []) self.new }
    {
        put_word(self.table, self.place, value);
        self.place += 1;
    }

    // Zeros up to word `end`.
    pub fn zeros(&mut self, end: usize)
        requires { (table_bytes ≤ length self.old.table.now) × (self.old.place ≤ end) × (end ≤ table_length) }
        ensures { Emits self.old (replicate (end - self.old.place) 0) self.new }
    {
        while self.place < end {
            self.word(0);
        }
    }

    // One instruction.
    pub fn instr(&mut self, operation: u32, constant: u32)
        requires { HasRoom self.old (operation ∷ constant ∷ []) }
        ensures { Emits self.old (operation ∷ constant ∷ []) self.new }
    {
        self.word(operation);
        self.word(constant);
    }

    // A name: fetched from scratch if the event copies it, else loaded from the store.
    fn name(&mut self, draft: &Draft, event: usize, j: usize)
        requires index { j < behaviour_limit }
        requires room { HasRoom self.old (name_words draft.now event j) }
        ensures { Emits self.old (name_words draft.now event j) self.new }
    {
        if entry_of(draft, event, j) == 0 {
            self.instr(opcodes::LOAD + j as u32, 0);
        } else {
            self.instr(opcodes::FETCH + j as u32, 0);
        }
    }

    // A node.
    fn node(&mut self, draft: &Draft, event: usize, node: u64)
        requires { HasRoom self.old (node_words draft.now event node) }
        ensures { Emits self.old (node_words draft.now event node) self.new }
    {
        let word = draft_form::node_word(node);
        match draft_form::node_tag(node) {
            layout::CONSTANT => self.instr(opcodes::PUSH, word),
            layout::NAME => self.name(draft, event, word as usize % limits::BEHAVIOURS),
            _ => self.instr(opcodes::APPLY + word % FUNCTIONS, 0),
        }
    }

    // The expression of these nodes of the draft, as behaviour i uses them.
    fn expr(&mut self, draft: &Draft, event: usize, i: usize, nodes: &[u64])
        requires index { i < behaviour_limit }
        requires room { HasRoom self.old (flat_map (λ x. node_words draft.now event (moved draft.now i x)) nodes.now) }
        ensures { Emits self.old (flat_map (λ x. node_words draft.now event (moved draft.now i x)) nodes.now) self.new }
    {
        for node in nodes {
            self.node(draft, event, moved_node(draft, i, *node));
        }
    }

    // The expression of behaviour i, and then the operation on i.
    pub fn turn_code(&mut self, draft: &Draft, event: usize, operation: u32, i: usize)
        requires entries_inside { EntriesInside draft.now event (i + 1) × (operation ≤ defer_code) }
        requires room { HasRoom self.old (turn_words draft.now event operation i) }
        ensures { Emits self.old (turn_words draft.now event operation i) self.new }
    {
        let nodes = draft_form::nodes_of(draft, entry_of(draft, event, i));
        self.expr(draft, event, i, nodes);
        self.instr(operation + i as u32, 0);
    }

    // The same, if its entry is of this kind.
    pub fn turn_of_kind(&mut self, draft: &Draft, event: usize, kind: u64, operation: u32, i: usize)
        requires entries_inside { EntriesInside draft.now event (i + 1) × (operation ≤ defer_code) }
        requires room { HasRoom self.old (turn_words_of_kind draft.now event kind operation i) }
        ensures { Emits self.old (turn_words_of_kind draft.now event kind operation i) self.new }
    {
        if entry_kind(entry_of(draft, event, i)) == kind {
            self.turn_code(draft, event, operation, i);
        }
    }

    // The move of a later handler's value.
    pub fn later_move(&mut self, draft: &Draft, event: usize, i: usize)
        requires index { i < behaviour_limit }
        requires room { HasRoom self.old (move_words draft.now event i) }
        ensures { Emits self.old (move_words draft.now event i) self.new }
    {
        if entry_kind(entry_of(draft, event, i)) == layout::LATER {
            self.instr(opcodes::MOVE + i as u32, 0);
        }
    }

    // The operation on i, if the event copies i.
    pub fn member(&mut self, draft: &Draft, event: usize, operation: u32, i: usize)
        requires index { (i < behaviour_limit) × (operation ≤ restore_code) }
        requires room { HasRoom self.old (member_words draft.now event operation i) }
        ensures { Emits self.old (member_words draft.now event operation i) self.new }
    {
        if entry_of(draft, event, i) != 0 {
            self.instr(operation + i as u32, 0);
        }
    }
}
