//! What holds of symbols whatever names are met.

ghost use Rattle.names.specs.Numbering.{InTurn, StaysKnown, AddsBehind, FrontStays, KnowsEachMet, SymbolsBelow, StandsAtSymbol, SymbolsDiffer, AddsLast};

/// Does nothing: its contract is what whoever keeps symbols may rest on.
pub fn numbering()
    ensures in_turn { InTurn }
    ensures stays_known { StaysKnown }
    ensures adds_behind { AddsBehind }
    ensures front_stays { FrontStays }
    ensures knows_each_met { KnowsEachMet }
    ensures symbols_below { SymbolsBelow }
    ensures stands_at_symbol { StandsAtSymbol }
    ensures symbols_differ { SymbolsDiffer }
    ensures adds_last { AddsLast }
{}
