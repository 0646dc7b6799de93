//! The whole of a text's tokens: the module that they say, or the first token with which no module goes on.

ghost use Rattle.std.specs.Prelude.{◌≡◌, ℕ, List as Row, IfOk, IfErr};
ghost use Rattle.ir_lex.specs.declared.token.Token.{Token as LexToken};
ghost use Rattle.ir_lex.specs.declared.token.TokenKind.{TokenKind as Kind};
ghost use Rattle.ir_core.specs.declared.module.Module.{Module as IrModule};
ghost use Rattle.ir_grammar.specs.Tokens.{kinds};
ghost use Rattle.ir_grammar.specs.Grammar.{Derives};
ghost use Rattle.ir_syntax.specs.ModuleText.{module_text as a_module_text};
ghost use Rattle.ir_core.specs.Built.{IsBuilt};
ghost use Rattle.ir_built.specs.SmallTexts.{AreOfSmallText};
ghost use Rattle.ir_parse.specs.Faults.{Faults, LeavesStray, Tells, AreOfText, is_unsupported as is_unsupported_at};

use crate::module::module_text;
use ir_core::module::Module;
use ir_core::ty::Name;
use ir_grammar::cursor::Stop;
use ir_lex::token::{Token, TokenKind};
use ir_syntax::words::at_one_of;
use rd_num::list::List;
use std::alloc::Global;

/// Why a text has no module: at `place` stands the first token with which no module's text goes on, or
/// the text ends there too early. `Unsupported` is a word that is known, and left out on purpose.
#[derive(Drop)]
pub enum ParseFault {
    Grammar { place: u64 },
    Unsupported { place: u64, word: Name },
    NoMemory,
}

/// Words of the language that no module of the profile has.
const UNSUPPORTED: [&[u8]; 78] = [
    b"half",
    b"bfloat",
    b"float",
    b"double",
    b"fp128",
    b"x86_fp80",
    b"ppc_fp128",
    b"i128",
    b"x86_mmx",
    b"token",
    b"opaque",
    b"ptrtoint",
    b"inttoptr",
    b"addrspacecast",
    b"bitcast",
    b"fadd",
    b"fsub",
    b"fmul",
    b"fdiv",
    b"frem",
    b"fneg",
    b"fcmp",
    b"fptrunc",
    b"fpext",
    b"fptoui",
    b"fptosi",
    b"uitofp",
    b"sitofp",
    b"extractvalue",
    b"insertvalue",
    b"extractelement",
    b"insertelement",
    b"shufflevector",
    b"invoke",
    b"resume",
    b"landingpad",
    b"cleanupret",
    b"catchret",
    b"catchswitch",
    b"catchpad",
    b"cleanuppad",
    b"callbr",
    b"indirectbr",
    b"musttail",
    b"va_arg",
    b"fence",
    b"cmpxchg",
    b"atomicrmw",
    b"atomic",
    b"asm",
    b"module",
    b"alias",
    b"ifunc",
    b"external",
    b"extern_weak",
    b"available_externally",
    b"appending",
    b"thread_local",
    b"comdat",
    b"personality",
    b"gc",
    b"prefix",
    b"prologue",
    b"byval",
    b"byref",
    b"preallocated",
    b"inalloca",
    b"inreg",
    b"nest",
    b"swiftself",
    b"swifterror",
    b"addrspace",
    b"blockaddress",
    b"dso_local_equivalent",
    b"no_cfi",
    b"splat",
    b"...",
    b"x86_intrcc",
];

/// Whether such a word stands first.
#[tactic(auto, unfolding(ir_syntax::specs::Words::unsupported_words))]
fn is_unsupported(tokens: &[Token]) -> bool
    ensures { result ≡ is_unsupported_at tokens.now }
{
    at_one_of(tokens, &UNSUPPORTED)
}

/// What is told of the first stray token, or of the end of a text where there is none.
fn fault_at(alloc: Global, rest: &[Token], end: u64) -> ParseFault
    ensures { Tells rest.now end result }
{
    if !is_unsupported(rest) {
        return match rest {
            [next, ..] => ParseFault::Grammar { place: next.place },
            _ => ParseFault::Grammar { place: end },
        };
    }
    match rest {
        [next, ..] => match &next.kind {
            TokenKind::Word(text) => {
                let mut word = List::new(alloc);
                match word.append(text.as_slice()) {
                    Ok(()) => ParseFault::Unsupported {
                        place: next.place,
                        word,
                    },
                    Err(_) => ParseFault::NoMemory,
                }
            }
            _ => ParseFault::NoMemory,
        },
        _ => ParseFault::NoMemory,
    }
}

/// The module that all tokens say, or how many tokens are left from the first stray one on.
#[tactic(auto, using(crate::proofs::Whole::whole_text, crate::proofs::Whole::stray_inside, crate::proofs::Whole::stray_behind_text))]
fn whole(alloc: Global, tokens: &[Token]) -> Result<Module, Stop>
    ensures text { IfOk result (λ m. Derives a_module_text m (kinds tokens.now)) }
    ensures stray { IfErr result (λ stop. LeavesStray (kinds tokens.now) stop) }
{
    let (module, rest) = module_text(alloc, tokens)?;
    if !rest.is_empty() {
        return Err(Stop::Stray(rest.len()));
    }
    Ok(module)
}

/// What is told where reading stops so, of a text that ends at `end`.
#[tactic(auto, using(crate::proofs::Whole::stray_few, crate::proofs::Whole::stray_fault))]
fn told(alloc: Global, tokens: &[Token], stop: Stop, end: u64) -> ParseFault
    requires text { AreOfText tokens.now end }
    requires stray { LeavesStray (kinds tokens.now) stop }
    ensures { Faults tokens.now end result }
{
    match stop {
        Stop::Stray(left) => fault_at(alloc, &tokens[tokens.len() - left..], end),
        Stop::NoMemory => ParseFault::NoMemory,
    }
}

/// The module that the tokens of a text say; `end` is the length of the text.
///
/// `Grammar` and `Unsupported` come exactly where the tokens are no module's, with the place of the first
/// one with which no module's text goes on, or `end`; `Unsupported` exactly where that token is a word
/// that is known and not supported. A text of fewer than 2^32 bytes says none but built modules. Takes
/// time and memory linear in the tokens.
#[tactic(auto, using(ir_built::proofs::BuiltModule::small_built))]
pub fn parse(alloc: Global, tokens: &List<Token>, end: u64) -> Result<Module, ParseFault>
    requires { AreOfText tokens.now end }
    ensures text { IfOk result (λ m. Derives a_module_text m (kinds tokens.now)) }
    ensures built { IfOk result (λ m. AreOfSmallText tokens.now → IsBuilt m) }
    ensures fault { IfErr result (λ fault. Faults tokens.now end fault) }
{
    match whole(alloc, tokens.as_slice()) {
        Ok(module) => Ok(module),
        Err(stop) => Err(told(alloc, tokens.as_slice(), stop, end)),
    }
}

/// Tokens are one module's at most.
pub fn one_module()
    ensures { (a b : IrModule) (ts : Row Kind) → Derives a_module_text a ts →
        Derives a_module_text b ts → a ≡ b }
{}

/// Tokens that are a module's have no fault.
pub fn never_both()
    ensures { (m : IrModule) (tokens : Row LexToken) (end place : ℕ) →
        Derives a_module_text m (kinds tokens) → ¬ (Faults tokens end (ParseFault.Grammar place)) }
{}
