//! Laws of scripts, each as a function whose contract is the law.
ghost use Rattle.std.specs.Prelude.{List, ℕ};
ghost use Rattle.script.specs.declared.command.Written.{Written};
ghost use Rattle.script_reader.specs.Same.{AreSameLanes};
ghost use Rattle.script_reader.specs.Script.{Commands, IsScript, Tree};
ghost use Rattle.script_reader.specs.Writing.{IsScriptOf, script_text};

/// A text is a script of no other lanes. What is written of trees and lanes is a script of these lanes, so they are read back.
pub fn readings()
    ensures one { (bytes : List ℕ) (a b : List Commands) → IsScript bytes a → IsScript bytes b → AreSameLanes a b }
    ensures back { (trees : List Tree) (lines : List (List Written)) (lanes : List Commands) → IsScriptOf trees lines lanes → IsScript (script_text trees lines) lanes }
{}
