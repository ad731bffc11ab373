//! The families that compares of one season have behind them, by turns.

use either::Either;
use makers::board::Board;
use makers::machine::Machine;
use parts::symbols::SymbolSet;
use rules::chain::Chain;

/// Any of the four. All compares of a list hang values of one type; nested, `Either` makes one
/// type of as many as there are.
pub(crate) type Family = Either<
    Either<Board, Machine>,
    Either<Chain<Board, Machine>, Chain<Machine, Board>>,
>;

/// A board that shows symbols 0 to 2, a machine, and both, one after the other.
pub(crate) fn families() -> [Family; 4] {
    let board = Board {
        shown: SymbolSet { bits: 0b111 },
    };
    [
        Either::Left(Either::Left(board)),
        Either::Left(Either::Right(Machine)),
        Either::Right(Either::Left(Chain::of(board, Machine))),
        Either::Right(Either::Right(Chain::of(Machine, board))),
    ]
}

/// What a family is called.
pub(crate) fn name_of(family: &Family) -> &'static str {
    match family {
        Either::Left(Either::Left(_)) => "board",
        Either::Left(Either::Right(_)) => "machine",
        Either::Right(Either::Left(_)) => "board then machine",
        Either::Right(Either::Right(_)) => "machine then board",
    }
}
