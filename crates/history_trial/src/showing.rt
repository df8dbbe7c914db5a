//! What is printed of a machine and its history.

use core_load::Core;
use cpu8::{Machine, Stepped};
use history8::{End, History, Run};
use word12::{CORE, Cell};

/// Prints the machine, what its changes printed, and how many they are.
pub fn show<R: Print>(rt: &R, history: &History, first: &Core) -> Option<()> {
    let machine = history.machine();
    print_registers(rt, machine)?;
    print_flags(rt, machine)?;
    print_cells(rt, machine.core(), first)?;
    print_characters(rt, history.printed_characters())?;
    print_counts(rt, history)
}

/// Prints how many changes there are, and how many of them are steps.
pub fn print_counts<R: Print>(rt: &R, history: &History) -> Option<()> {
    let (changes, steps) = (history.change_count(), history.step_count());
    println!(rt; "changes {changes} steps {steps}").ok()
}

fn print_registers<R: Print>(rt: &R, machine: &Machine) -> Option<()> {
    println!(rt;
        "ac {:04o} l {} pc {:04o} if {} ib {} df {} sf {:02o} switches {:04o} key {:03o}",
        machine.ac().get(),
        machine.l(),
        machine.pc().get(),
        machine.instruction_field(),
        machine.instruction_buffer(),
        machine.data_field(),
        machine.save_field(),
        machine.switch_register().get(),
        machine.keyboard_buffer()
    )
    .ok()
}

/// Prints the names of the flags that are set.
fn print_flags<R: Print>(rt: &R, machine: &Machine) -> Option<()> {
    let flags = [
        ("run", machine.is_running()),
        ("ion", machine.interrupts_on()),
        ("wait", machine.is_waiting()),
        ("held", machine.is_held_off()),
        ("kbd", machine.keyboard_flag()),
        ("printer", machine.printer_flag()),
        ("busy", machine.is_busy()),
    ];
    print!(rt; "flags").ok()?;
    for (name, is_set) in flags {
        if is_set {
            print!(rt; " {name}").ok()?;
        }
    }
    println!(rt; "").ok()
}

/// Prints the cells that have another word than at first, each with its word.
fn print_cells<R: Print>(rt: &R, core: &Core, first: &Core) -> Option<()> {
    print!(rt; "cells").ok()?;
    for number in 0..CORE {
        let cell = Cell::of(number as u32);
        let word = core.get(cell);
        if word != first.get(cell) {
            print!(rt; " {number:05o} {:04o}", word.get()).ok()?;
        }
    }
    println!(rt; "").ok()
}

fn print_characters<R: Print>(rt: &R, characters: &[u8]) -> Option<()> {
    print!(rt; "printed").ok()?;
    for character in characters {
        print!(rt; " {:03o}", *character).ok()?;
    }
    println!(rt; "").ok()
}

/// Prints what a step did.
pub fn print_step<R: Print>(rt: &R, did: &Stepped) -> Option<()> {
    match did {
        Stepped::Stopped => print!(rt; " stopped").ok(),
        Stepped::Interrupted => print!(rt; " interrupted").ok(),
        Stepped::Ran { printed: None } => print!(rt; " ran").ok(),
        Stepped::Ran {
            printed: Some(character),
        } => print!(rt; " {:03o}", *character).ok(),
        Stepped::Halted => print!(rt; " halted").ok(),
        Stepped::Unassigned(word) => print_unassigned(rt, word.get()),
    }
}

/// Prints the unassigned word that a step met.
fn print_unassigned<R: Print>(rt: &R, word: u16) -> Option<()> {
    print!(rt; " unassigned {word:04o}").ok()
}

/// Prints how far a run went.
pub fn print_run<R: Print>(rt: &R, run: Run) -> Option<()> {
    let end = match run.end {
        End::Stopped => "stopped",
        End::Met => "met",
        End::Limit => "limit",
        End::Memory => "memory",
    };
    println!(rt; "run {} {end}", run.steps).ok()
}

/// Prints how many steps asked for no key.
pub fn print_unasked<R: Print>(rt: &R, steps: usize) -> Option<()> {
    println!(rt; "unasked {steps}").ok()
}

/// Prints how many changes ago a condition held last.
pub fn print_found<R: Print>(rt: &R, found: Option<usize>) -> Option<()> {
    match found {
        Some(changes) => println!(rt; "last {changes}").ok(),
        None => println!(rt; "last never").ok(),
    }
}
