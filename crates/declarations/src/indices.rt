//! Indices of items, messages and states, by name.

ghost use Rattle.std.specs.Prelude.{◌≡◌, option_map, option_and_then};
ghost use Rattle.tree.specs.Trees.{message_tree};
ghost use Rattle.declarations.specs.Types.{type_meant};
ghost use Rattle.declarations.specs.Indices.{contract_index, message_index, sent_index, message_at, state_index};
ghost use Rattle.declarations.specs.Named.{message_written, sent_message};
ghost use Rattle.declarations.specs.Program.{ProgramText, as_contract, item_at};
ghost use Rattle.tables.specs.Words.{word_at};

use crate::scope::Scope;
use crate::types::type_meant;
use crate::value_type::ValueType;
use source::Span;
use tree::{Message, Type};

impl<'a> Scope<'a> {
    ghost use Rattle.declarations.specs.Scopes.{IsScope};

    /// Returns the type that a written type means.
    #[inline(always)]
    pub fn type_meant(&self, written: Type) -> ValueType
        ensures { (p : ProgramText) → IsScope p self.now → result ≡ type_meant p written }
    {
        type_meant(self, written)
    }

    /// Returns the index of the first item of this name, if it is a contract.
    pub fn contract_index(&self, name: Span) -> Option<usize>
        ensures { (p : ProgramText) → IsScope p self.now → result ≡ contract_index p name }
    {
        let (index, _declared) = self.contract(name)?;
        Some(index)
    }

    /// Returns the index of the first message of this name in the contract that is item `contract`.
    pub fn message_index(&self, contract: usize, name: Span) -> Option<usize>
        ensures { (p : ProgramText) → IsScope p self.now → result ≡ message_index p contract (word_at p.text name) }
    {
        let declared = self.contract_at(contract)?;
        declared.messages.find(name.slice(self.text))
    }

    /// Returns the index of the first message that a word like `SendM` sends, in the contract that is item `contract`.
    pub fn sent_index(&self, contract: usize, word: Span) -> Option<usize>
        ensures { (p : ProgramText) → IsScope p self.now → result ≡ sent_index p contract word }
    {
        let declared = self.contract_at(contract)?;
        let name = word.slice(self.text).strip_prefix(b"Send")?;
        declared.messages.find(name)
    }

    /// Returns the message at `index` in the contract that is item `contract`.
    pub fn message_at(&self, contract: usize, index: usize) -> Option<&'a Message>
        ensures { (p : ProgramText) → IsScope p self.now → option_map (λ m. message_tree m.now) result ≡ message_at p contract index }
    {
        let declared = self.contract_at(contract)?;
        declared.outline.messages.get(index).copied()
    }

    /// Returns the first message of this name in the contract that is item `contract`.
    pub fn message(&self, contract: usize, name: Span) -> Option<&'a Message>
        ensures { (p : ProgramText) → IsScope p self.now → option_map (λ m. message_tree m.now) result
            ≡ option_and_then (λ c. message_written p.text c.1 (word_at p.text name)) (item_at as_contract p contract) }
    {
        let declared = self.contract_at(contract)?;
        declared.message(name.slice(self.text))
    }

    /// Returns the first message that a word like `SendM` sends, in the contract that is item `contract`.
    pub fn sent_message(&self, contract: usize, word: Span) -> Option<&'a Message>
        ensures { (p : ProgramText) → IsScope p self.now → option_map (λ m. message_tree m.now) result
            ≡ option_and_then (λ c. sent_message p.text c.1 (word_at p.text word)) (item_at as_contract p contract) }
    {
        let declared = self.contract_at(contract)?;
        let written = word.slice(self.text).strip_prefix(b"Send")?;
        declared.message(written)
    }

    /// Returns the index of the first state of this name in the contract that is item `contract`. Unnamed states are counted.
    pub fn state_index(&self, contract: usize, name: Span) -> Option<usize>
        ensures { (p : ProgramText) → IsScope p self.now → result ≡ state_index p contract name }
    {
        let declared = self.contract_at(contract)?;
        let index = declared.states.find(name.slice(self.text))?;
        declared.named_index(index)
    }
}
