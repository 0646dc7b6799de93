//! The text of a module of any number of functions, each of which calls another one.
//!
//!     declare i32 @putchar(i32)
//!     define i32 @f0(i32 %x) { .. }
//!     define i32 @f1(i32 %x) { .. call i32 @f0 .. }
//!     define i32 @f2(i32 %x) { .. call i32 @f1 .. }
//!     define i32 @main() { .. a hundred calls of the last one .. }
//!
//! Function i multiplies, adds, calls the function of half its number, and combines what comes back
//! with what it was given. `main` prints a letter for each of a hundred arguments. The whole text
//! stands in `specs/Workload.antt`, in the spelling in which modules are printed.
#![tactic(auto)]

ghost use Rattle.std.specs.Prelude.{◌≡◌, ◌≤◌, ◌<◌, ◌++◌, ◌-◌, IfOk, OnOk, decimal};
ghost use Rattle.std.specs.List.{flat_map, range_with_len};
ghost use Rattle.rd_gen.specs.Workload.{call_text, caller_text, factor, main_text, start_text, summand, workload_text};

use itoa::Buffer;
use rd_num::list::List;
use rd_num::width::NoMemory;
use std::alloc::Global;

#[cfg(test)]
mod tests;

/// After so many functions their factors begin again.
const FACTORS: u32 = 1000;

/// What is declared, and the one function that calls none.
const FIRST: &[u8] = b"declare i32 @putchar(i32)
define i32 @f0(i32 %x) {
e:
  %a = mul i32 %x, 3
  %b = add i32 %a, 1
  ret i32 %b
}
";

/// `main` behind the number of the function that it calls.
const MAIN_END: &[u8] = b"(i32 %i)
  %s = and i32 %r, 15
  %t = add i32 %s, 65
  %p = call i32 @putchar(i32 %t)
  %j = add i32 %i, 1
  %q = icmp eq i32 %j, 100
  br i1 %q, label %z, label %h
z:
  ret i32 0
}
";

/// Appends a decimal number.
fn put_number(text: &mut List<u8>, n: u32) -> Result<(), NoMemory>
    ensures { OnOk result (text.new ≡ text.old ++ decimal n) }
{
    let mut buffer = Buffer::new();
    text.append(buffer.format(n).as_bytes())
}

/// Appends bytes and then a decimal number.
fn put_numbered(text: &mut List<u8>, before: &[u8], n: u32) -> Result<(), NoMemory>
    ensures { OnOk result (text.new ≡ text.old ++ before.now ++ decimal n) }
{
    text.append(before)?;
    put_number(text, n)
}

/// What the function of a number multiplies by.
#[tactic(auto, unfolding(crate::specs::Workload::factor))]
fn factor_of(i: u32) -> u32
    ensures { result ≡ factor i }
{
    2 * (i % FACTORS) + 3
}

/// What the function of a number adds.
#[tactic(auto, unfolding(crate::specs::Workload::summand))]
fn summand_of(i: u32) -> u32
    requires { i < 4000 }
    ensures { result ≡ summand i }
{
    7 * i + 1
}

/// Appends the first lines of a function, with its multiplication.
#[tactic(auto, unfolding(crate::specs::Workload::start_text))]
fn put_start(text: &mut List<u8>, i: u32) -> Result<(), NoMemory>
    ensures { OnOk result (text.new ≡ text.old ++ start_text i) }
{
    put_numbered(text, b"define i32 @f", i)?;
    put_numbered(text, b"(i32 %x) {\ne:\n  %a = mul i32 %x, ", factor_of(i))
}

/// Appends the other lines of a function, with its sum and its call.
#[tactic(auto, unfolding(crate::specs::Workload::call_text))]
fn put_call(text: &mut List<u8>, i: u32) -> Result<(), NoMemory>
    requires { i < 4000 }
    ensures { OnOk result (text.new ≡ text.old ++ call_text i) }
{
    put_numbered(text, b"\n  %b = add i32 %a, ", summand_of(i))?;
    put_numbered(text, b"\n  %c = call i32 @f", i / 2)?;
    text.append(b"(i32 %b)\n  %d = xor i32 %c, %x\n  ret i32 %d\n}\n")
}

/// Appends the function of a number, which calls the one of half its number.
#[tactic(auto, unfolding(crate::specs::Workload::caller_text))]
fn put_caller(text: &mut List<u8>, i: u32) -> Result<(), NoMemory>
    requires { i < 4000 }
    ensures { OnOk result (text.new ≡ text.old ++ caller_text i) }
{
    put_start(text, i)?;
    put_call(text, i)
}

/// Appends the functions that call another one, those from 1 on below a number.
fn put_callers(text: &mut List<u8>, number: u32) -> Result<(), NoMemory>
    requires { number ≤ 4000 }
    ensures { OnOk result (text.new ≡ text.old ++
        flat_map caller_text (range_with_len 1 (number - 1))) }
{
    for i in 1..number {
        put_caller(text, i)?;
    }
    Ok(())
}

/// Appends `main`, which calls the function of a number.
#[tactic(auto, unfolding(crate::specs::Workload::main_text))]
fn put_main(text: &mut List<u8>, last: u32) -> Result<(), NoMemory>
    ensures { OnOk result (text.new ≡ text.old ++ main_text last) }
{
    text.append(b"define i32 @main() {\ne:\n  br label %h\nh:\n")?;
    text.append(b"  %i = phi i32 [ 0, %e ], [ %j, %h ]\n  %r = call i32 @f")?;
    put_number(text, last)?;
    text.append(MAIN_END)
}

/// The text of the module of so many functions and `main`.
///
/// Time and memory are linear in the text.
#[tactic(auto, unfolding(crate::specs::Workload::workload_text))]
pub fn module(alloc: Global, number: u32) -> Result<List<u8>, NoMemory>
    requires some { 1 ≤ number }
    requires most { number ≤ 4000 }
    ensures { IfOk result (λ text. text ≡ workload_text number) }
{
    let mut text = List::new(alloc);
    text.append(FIRST)?;
    put_callers(&mut text, number)?;
    put_main(&mut text, number - 1)?;
    Ok(text)
}
