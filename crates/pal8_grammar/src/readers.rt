ghost use Rattle.std.specs.Prelude.{◌≡◌, Some, [], ◌∷◌, ◌++◌, OnOk};
ghost use Rattle.pal8_grammar.specs.Values.{Reading, steps_in, steps_of, with_address, with_end, with_expression, with_literal, with_next, with_sign, with_term, with_token, with_value};
ghost use Rattle.pal8_grammar.specs.Steps.{Closes, Reads, Takes, setting_of};
ghost use Rattle.pal8_grammar.specs.declared.stands.Stand.{Stand};
ghost use Rattle.pal8_grammar.specs.declared.steps.Step.{Step};

use crate::kinds::{
    is_closing, modifier_of, opening_of, operation_of, operator_of, sign_of, step_of_name, term_of,
};
use crate::literals::Literals;
use crate::stands::{goes_on, is_whole};
use crate::{Outer, Rules, SourceNames, Stand, Step};
use pal8_lex::{Kind, Name, Operator, Pool, Token};
use std::alloc::{AllocError, Global};
use std::marker::Model;

/// Reads values from tokens, one after the other. It keeps its room from one value to the next.
#[derive(Drop)]
pub struct Reader {
    stand: Stand,
    literals: Literals,
    steps: Vec<Step>,
}

impl Model for Reader {
    ghost use Rattle.pal8_grammar.specs.Values.{Reading};

    ghost Value = { Reading };

    ghost view = { λ r. record { stand = r.stand; literals = r.literals; steps = r.steps.items } };
}

impl Reader {
    /// A reader of no value. It takes no memory.
    pub fn new(alloc: Global) -> Reader
        ensures { result.steps ≡ [] }
    {
        Reader {
            stand: Stand::Value,
            literals: Literals::new(alloc),
            steps: Vec::new(alloc),
        }
    }

    /// The steps of the value that was read last; none where a body has no value.
    pub fn steps(&self) -> &[Step]
        ensures { result.now ≡ self.now.steps }
    {
        &self.steps
    }

    /// Begins anew.
    pub(crate) fn clear(&mut self, first: Stand)
        ensures { self.new ≡ record { stand = first; literals = []; steps = [] } }
    {
        self.stand = first;
        self.literals.clear();
        self.steps.clear();
    }

    /// Reads a value or, where it begins as one, an expression, and answers whether the tokens are one (PAL8, in this project's
    /// profile).
    pub(crate) fn read(
        &mut self,
        names: &SourceNames,
        rules: Rules,
        first: Stand,
        tokens: &[Token],
    ) -> Result<bool, AllocError>
        ensures { Reads (steps_of (setting_of names.now rules) first tokens.now) result self.new }
    {
        self.clear(first);
        let mut rest = tokens;
        while let [token, others @ ..] = rest {
            let is_taken = self.take(names, rules, token)?;
            if !is_taken {
                return Ok(false);
            }
            rest = others;
        }
        self.finish()
    }

    /// Ends a value, and answers whether it is whole.
    fn finish(&mut self) -> Result<bool, AllocError>
        ensures { Reads (steps_in (Some self.old)) result self.new }
    {
        if !is_whole(self.stand) {
            return Ok(false);
        }
        while let Some(_outer) = self.close()? {}
        Ok(true)
    }

    /// Takes the next token, and answers whether it may stand there.
    fn take(&mut self, names: &SourceNames, rules: Rules, token: &Token) -> Result<bool, AllocError>
        ensures { Takes (with_token (setting_of names.now rules) token.now self.old) result self.new }
    {
        match self.stand {
            Stand::Value => self.begin_value(names, rules, token.kind),
            Stand::Expression => self.begin_expression(names, rules, token.kind),
            Stand::Sign(is_address) => self.put_term(names, rules, is_address, token.kind),
            Stand::Operation(_) | Stand::Address | Stand::Term(_) => {
                if goes_on(self.stand, token) {
                    self.go_on(names, rules, token.kind)
                } else {
                    self.end(names, rules, token)
                }
            }
        }
    }

    /// Takes the first token of a value.
    fn begin_value(
        &mut self,
        names: &SourceNames,
        rules: Rules,
        kind: Kind,
    ) -> Result<bool, AllocError>
        ensures { Takes (with_value (setting_of names.now rules) kind self.old) result self.new }
    {
        let again = kind;
        match operation_of(names, kind) {
            Some((name, word)) => {
                self.put(Step::Operation(word), Stand::Operation(name.number()))?;
                Ok(true)
            }
            None => self.begin_expression(names, rules, again),
        }
    }

    /// Takes the first token of an expression.
    fn begin_expression(
        &mut self,
        names: &SourceNames,
        rules: Rules,
        kind: Kind,
    ) -> Result<bool, AllocError>
        ensures { Takes (with_expression (setting_of names.now rules) kind self.old) result self.new }
    {
        let again = kind;
        match sign_of(kind) {
            Some(operator) => {
                self.put_sign(false, operator)?;
                Ok(true)
            }
            None => self.put_term(names, rules, false, again),
        }
    }

    /// Takes a token that goes on with a value.
    fn go_on(&mut self, names: &SourceNames, rules: Rules, kind: Kind) -> Result<bool, AllocError>
        ensures { Takes (with_next (setting_of names.now rules) kind self.old) result self.new }
    {
        let again = kind;
        match self.stand {
            Stand::Operation(number) => match operator_of(kind) {
                Some(operator) => {
                    self.put(Step::Alone, Stand::Term(false))?;
                    let name = Name::from_number(number);
                    self.put(step_of_name(names, name), Stand::Term(false))?;
                    self.put_sign(false, operator)?;
                    Ok(true)
                }
                None => self.put_address(names, rules, again),
            },
            Stand::Address => self.put_address(names, rules, again),
            Stand::Term(is_address) => match operator_of(kind) {
                Some(operator) => {
                    self.put_sign(is_address, operator)?;
                    Ok(true)
                }
                None => {
                    self.put_sign(is_address, Operator::Or)?;
                    self.put_term(names, rules, is_address, again)
                }
            },
            Stand::Value | Stand::Expression | Stand::Sign(_) => Ok(false),
        }
    }

    /// Takes what stands after an operation, `I` or `Z` with a blank.
    fn put_address(
        &mut self,
        names: &SourceNames,
        rules: Rules,
        kind: Kind,
    ) -> Result<bool, AllocError>
        ensures { Takes (with_address (setting_of names.now rules) kind self.old) result self.new }
    {
        let again = kind;
        match modifier_of(kind) {
            Some(is_indirect) => {
                if is_indirect {
                    self.put(Step::Indirect, Stand::Address)?;
                } else {
                    self.stand = Stand::Address;
                }
                Ok(true)
            }
            None => self.put_term(names, rules, true, again),
        }
    }

    /// Takes a token that doesn't go on with the innermost value: it ends that, and others around it.
    fn end(&mut self, names: &SourceNames, rules: Rules, token: &Token) -> Result<bool, AllocError>
        ensures { Takes (with_end (setting_of names.now rules) token.now self.old.literals self.old.steps) result self.new }
    {
        while let Some(outer) = self.close()? {
            if is_closing(outer.pool, token.kind) {
                return Ok(true);
            }
            if goes_on(Stand::Term(outer.is_address), token) {
                return self.go_on(names, rules, token.kind);
            }
        }
        Ok(false)
    }

    /// Closes the innermost literal, if one is open.
    fn close(&mut self) -> Result<Option<Outer>, AllocError>
        ensures { Closes self.old result self.new }
    {
        match self.literals.pop() {
            Some(outer) => {
                self.put(Step::Close, Stand::Term(outer.is_address))?;
                Ok(Some(outer))
            }
            None => Ok(None),
        }
    }

    /// Takes a term, or the opening of a literal.
    fn put_term(
        &mut self,
        names: &SourceNames,
        rules: Rules,
        is_address: bool,
        kind: Kind,
    ) -> Result<bool, AllocError>
        ensures { Takes (with_term (setting_of names.now rules) is_address kind self.old) result self.new }
    {
        let again = kind;
        match opening_of(kind) {
            Some(pool) => self.open(rules.has_literals, pool, is_address),
            None => match term_of(names, rules, again) {
                Some(step) => {
                    self.put(step, Stand::Term(is_address))?;
                    Ok(true)
                }
                None => Ok(false),
            },
        }
    }

    /// Opens a literal, where literals may stand.
    fn open(&mut self, has_literals: bool, pool: Pool, is_address: bool) -> Result<bool, AllocError>
        ensures { Takes (with_literal has_literals pool is_address self.old) result self.new }
    {
        if !has_literals {
            return Ok(false);
        }
        let again = pool;
        self.literals.push(Outer { pool, is_address })?;
        self.put(Step::Open(again), Stand::Value)?;
        Ok(true)
    }

    fn put_sign(&mut self, is_address: bool, operator: Operator) -> Result<(), AllocError>
        ensures { OnOk result (self.new ≡ with_sign is_address operator self.old) }
    {
        self.put(Step::Sign(operator), Stand::Sign(is_address))?;
        Ok(())
    }

    /// Puts a step after the others, and stands after it.
    pub(crate) fn put(&mut self, step: Step, stand: Stand) -> Result<(), AllocError>
        ensures { OnOk result (self.new ≡ record {
          stand = stand;
          literals = self.old.literals;
          steps = self.old.steps ++ step ∷ [];
        }) }
    {
        self.steps.reserve(1)?;
        self.steps.push_reserved(step);
        self.stand = stand;
        Ok(())
    }
}
