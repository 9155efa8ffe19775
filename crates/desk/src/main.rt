// The desk program: reads fields from standard input, calls the engine and writes the lines of desk_format. Its memory
// is fixed: with a heap, memory that fails would be one more end of a line.

#![tactic(auto)]

ghost use Rattle.std.specs.Prelude.{◌≤◌, ◌<◌, length};
ghost use Rattle.io.specs.Counts.{IsPrefixLen};
ghost use Rattle.spec_language.specs.Limits.{behaviour_limit};

use desk_format::lines::{Board, Refused, Stepped};
use desk_format::tags;
use format_layout::round::Round;
use format_layout::table;
use sheet_field::sizes;
use spec_language::refusals::Refusal;
use spec_language::{answers, limits};
use std::fmt::Display;
use std::io::{Print, Read};

// The most bytes that a field's value has, and one more.
const VALUE_BYTES: usize = 65536;

// A write that fails is passed over: nothing else can be told.
fn print<D: Display + Drop>(rt: &HostRuntime, line: D) {
    let _printed = rt.print(line).is_ok();
}

// Prints the refusal that a call's answer is, if it is one.
fn report(rt: &HostRuntime, answer: u32) {
    if answer != 0 {
        print(rt, Refused(u64::from(answer)));
    }
}

// Reads until buf is full, the input ends or a read fails. How many bytes it put at the start of buf.
fn read_full(rt: &HostRuntime, buf: &mut [u8]) -> usize
    ensures { IsPrefixLen result buf.new }
{
    let mut done = 0;
    while done < buf.len() {
        let n = rt.stdin().read(&mut buf[done..]).unwrap_or(0);
        if n == 0 {
            break;
        }
        done += n;
    }
    done
}

// Table and round, and whether a sheet was accepted: before that they are no program's.
#[derive(Drop)]
struct Desk {
    table: [u8; table::BYTES],
    round: [u8; Round::BYTES],
    ready: bool,
}

impl Desk {
    fn new() -> Desk {
        Desk {
            table: [0; table::BYTES],
            round: [0; Round::BYTES],
            ready: false,
        }
    }

    // A sheet. "An accepted sheet begins a fresh round": a refused one leaves the earlier round as it was.
    fn load(&mut self, rt: &HostRuntime, sheet: &[u8]) {
        let answer = engine::compile(sheet, &[], &mut self.table);
        report(rt, answer);
        if answer == 0 {
            engine::start(&self.table, &mut self.round);
            self.ready = true;
        }
    }

    // "the desk program's arrivals and readings are the host's": player 0
    fn offer(&mut self, rt: &HostRuntime, event: u32) {
        report(rt, engine::arrive(&self.table, &mut self.round, event, 0));
    }

    fn steps(&mut self, rt: &HostRuntime, count: u32) {
        for _ in 0..count {
            let stepped = Stepped(engine::step(&self.table, &mut self.round));
            if stepped.has_line() {
                print(rt, stepped);
            }
        }
    }

    // The value of a behaviour that the program has.
    fn value(&self, behaviour: u32) -> Option<u32> {
        let answer = engine::board(&self.table, &self.round, behaviour, 0);
        if answer < answers::VALUE {
            return None;
        }
        Some((answer % answers::VALUE) as u32)
    }

    // The board's values, as many as the program has: the part of `space` that they fill.
    fn read_board<'a>(&self, space: &'a mut [u32; limits::BEHAVIOURS]) -> &'a [u32]
        ensures { length result.now ≤ behaviour_limit }
    {
        for i in 0..limits::BEHAVIOURS {
            let Some(value) = self.value(i as u32) else {
                return &space[..i];
            };
            space[i] = value;
        }
        space
    }

    // "During copy-back a show prints the one line R 19, with or without behaviours."
    fn print_board(&self, rt: &HostRuntime) {
        if run_board::copy_back_at(&self.table, &self.round) {
            return report(rt, Refusal::Settling.number());
        }
        print(rt, Board(self.read_board(&mut [0; limits::BEHAVIOURS])));
    }

    // What a field asks for that is not refused.
    fn act(&mut self, rt: &HostRuntime, tag: u8, value: &[u8]) {
        match tag {
            tags::SHEET => self.load(rt, value),
            tags::ARRIVAL => self.offer(rt, desk_format::number_in(value)),
            tags::STEPS => self.steps(rt, desk_format::number_in(value)),
            _ => self.print_board(rt),
        }
    }

    // The field of this header: its value is read and acted on.
    fn field(&mut self, rt: &HostRuntime, head: &[u8]) -> Result<(), Refusal> {
        let a = desk_format::header(head);
        let Ok(header) = a else {
            return Err(a.unwrap_err());
        };
        let mut space = [0u8; VALUE_BYTES];
        let value = &mut space[..header.size];
        let got = read_full(rt, value);
        desk_format::judge_value(header.tag, header.size, got, self.ready)?;
        self.act(rt, header.tag, value);
        Ok(())
    }

    // One field of the input: whether the program goes on.
    fn turn(&mut self, rt: &HostRuntime) -> bool {
        let mut head = [0u8; sizes::HEADER];
        let got = read_full(rt, &mut head);
        if got == 0 {
            return false;
        }
        let Err(refusal) = self.field(rt, &head[..got]) else {
            return true;
        };
        let verdict = refusal.number();
        report(rt, verdict);
        !desk_format::ends(verdict)
    }
}

// Field after field. A proved loop has to end, and nothing says that the input does: it counts its turns, up to a
// number that no run reaches.
fn main(rt: HostRuntime) {
    let mut desk = Desk::new();
    for _ in 0..u64::MAX {
        if !desk.turn(&rt) {
            return;
        }
    }
}
