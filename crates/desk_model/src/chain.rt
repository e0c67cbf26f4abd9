ghost use Rattle.std.specs.Prelude.{◌≡◌, ◌≤◌, ◌+◌, ◌++◌, ◌∷◌, [], ℕ, List, IfSome, Some};
ghost use Rattle.std.specs.Option.{SomeIff};
ghost use Rattle.std.specs.List.{All, Contains};
ghost use Rattle.std.specs.Bool.{Decides};
ghost use Rattle.arrayvec.specs.ArrayVec.{array_vec_len};
ghost use Rattle.desk_base.specs.Code.{IsCode};
ghost use Rattle.desk_model.specs.statements.Chain.{IsChain, chain_text};

use arrayvec::ArrayVec;
use desk_base::{Code, split_once};
use std::marker::Model;

/// The text of a chain, 1 to 27 bytes.
pub type ChainText = ArrayVec<u8, 27>;

/// The boards that a vacancy is filled from, in their order: 1 to 4 codes, no two alike. A contract sees the
/// list of the codes' texts.
#[derive(Clone, Copy, Debug, PartialEq, Eq)]
pub struct Chain {
    boards: [Code; 4],
    len: u8,
}

impl Model for Chain {
    ghost use Rattle.std.specs.Prelude.{ℕ, List};

    ghost Value = { List (List ℕ) };

    ghost use Rattle.desk_model.specs.statements.ChainInside.{chain_boards, KeepsChain};
    ghost use Rattle.desk_model.specs.statements.ChainInside.{chain_inside, chain_inside-chain_boards};

    ghost view = { chain_boards };

    ghost invariant = { KeepsChain };

    ghost inverse = { chain_inside };

    ghost inverse_ok = { chain_inside-chain_boards };
}

impl Chain {
    /// The chain of the text, 1 to 4 codes joined by `+`, no two alike; `None` for any other text.
    pub fn read(text: &[u8]) -> Option<Chain>
        ensures some { IfSome result (λ chain. IsChain chain × (text.now ≡ chain_text chain)) }
        ensures only { (codes : List (List ℕ)) → IsChain codes → text.now ≡ chain_text codes
            → result ≡ Some codes }
    {
        let (first, after) = split_once(text, b'+');
        let mut chain = Chain::of(Code::read(first)?);
        let mut rest = after;
        while let Some(parts) = rest {
            let (part, after) = split_once(parts, b'+');
            chain = chain.with(Code::read(part)?)?;
            rest = after;
        }
        Some(chain)
    }

    /// The codes of the boards in their order, 1 to 4.
    pub fn codes(&self) -> &[Code]
        ensures value { result.now ≡ self.now }
        ensures range { IsChain self.now }
    {
        &self.boards[..self.len as usize]
    }

    /// The text of the chain: its codes joined by `+`.
    pub fn write(&self) -> ChainText
        ensures { result.items ≡ chain_text self.now }
    {
        let mut text = ArrayVec::new();
        for code in self.codes() {
            put_code(&mut text, code);
        }
        text
    }

    /// The chain of one board.
    pub fn of(board: Code) -> Chain
        requires { IsCode board }
        ensures { result ≡ board ∷ [] }
    {
        Chain {
            boards: [board; 4],
            len: 1,
        }
    }

    /// The chain with one board more behind the others; `None` exactly where it has four, or has this one.
    pub fn with(self, board: Code) -> Option<Chain>
        requires { IsCode board }
        ensures { SomeIff result (IsChain (self ++ board ∷ [])) (self ++ board ∷ []) }
    {
        if self.len == 4 || self.has(&board) {
            return None;
        }
        let mut boards = self.boards;
        boards[self.len as usize] = board;
        Some(Chain {
            boards,
            len: self.len + 1,
        })
    }

    // Whether this board is one of the chain's.
    fn has(&self, board: &Code) -> bool
        ensures { Decides result (Contains self.now board.now) }
    {
        self.codes().contains(board)
    }
}

// Adds a code at the end, behind a `+` where it is not the first.
fn put_code(text: &mut ChainText, code: &Code)
    requires { array_vec_len text.old + 7 ≤ 27 }
    ensures { (codes : List (List ℕ)) → All IsCode codes → text.old.items ≡ chain_text codes
        → text.new.items ≡ chain_text (codes ++ code.now ∷ []) }
{
    if !text.is_empty() {
        text.push(b'+');
    }
    text.try_extend_from_slice(code.text()).unwrap();
}
