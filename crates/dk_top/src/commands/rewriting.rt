//! `cut`, `narrow` and `widen`: other programs with the same pictures.

ghost use Rattle.std.specs.Prelude.{◌≡◌, ◌≢◌, Err, IfOk, IfErr, OnOk};
ghost use Rattle.dk_words.specs.declared.command.Rewriting.TheVariants.{Widen};
ghost use Rattle.dk_compile.specs.Widened.{IsWidenErrorBy};
ghost use Rattle.dk_top.specs.Command.{rewrite as rewrite_command, IsRewriting};
ghost use Rattle.dk_top.specs.Rewriting.{IsRewriteOf, AreRewriteLines, CanBeRewritten};
ghost use Rattle.dk_top.specs.Reading.{Stops, IsRewriteEnding};
ghost use Rattle.dk_top.specs.Unread.{unread_rewrite};
ghost use Rattle.dk_top.specs.Writing.{WritesLines};

use crate::files::{write_file, write_report};
use crate::of_text::{OfText, read_with};
use crate::reading::ending_of;
use crate::work::Work;
use dk_compile::{Rewritten, WidenError, cut_reported, narrow_reported, widen_reported};
use dk_desk::{Desk, Stage};
use dk_endings::Ending;
use dk_words::{RewriteWords, Rewriting};
use std::alloc::Global;

// How a call ends whose program was not widened.
fn ending_of_widen(error: WidenError) -> Ending
    ensures fault { (source : _) (phases : _) → IsWidenErrorBy source phases error
        → IsRewriteEnding (Widen phases) source result }
    ensures stops { Stops result }
    ensures judged { result ≢ Ending.ReadFault }
{
    match error {
        WidenError::Source(error) => ending_of(error),
        WidenError::Unable(fault) => Ending::Unable(fault),
    }
}

// What a text is rewritten to.
fn rewrite_text(alloc: Global, text: &[u8], how: Rewriting) -> Result<Rewritten, Ending>
    requires ranges { IsRewriting how }
    ensures is { IfOk result (λ r. IsRewriteOf how text.now r.text.items) }
    ensures lines { IfOk result (λ r. AreRewriteLines how text.now r.text.items r.lines.items) }
    ensures good { OnOk result (CanBeRewritten how text.now) }
    ensures fault { IfErr result (IsRewriteEnding how text.now) }
    ensures stops { IfErr result Stops }
    ensures judged { result ≢ Err Ending.ReadFault }
{
    match how {
        Rewriting::Cut(levels) => match cut_reported(alloc, text, levels) {
            Ok(cut) => Ok(cut),
            Err(error) => Err(ending_of(error)),
        },
        Rewriting::Narrow => match narrow_reported(alloc, text) {
            Ok(narrowed) => Ok(narrowed),
            Err(error) => Err(ending_of(error)),
        },
        Rewriting::Widen(phases) => match widen_reported(alloc, text, phases) {
            Ok(widened) => Ok(widened),
            Err(error) => Err(ending_of_widen(error)),
        },
    }
}

/// Rewrites the program.
impl OfText for RewriteWords<'_> {
    type Made = Rewritten;

    ghost ranges = { λ words. IsRewriting words.how };

    ghost makes = { λ words text made. IsRewriteOf words.how text made.text.items
        × AreRewriteLines words.how text made.text.items made.lines.items };

    ghost good = { λ words text. CanBeRewritten words.how text };

    ghost ends = { λ words text e. IsRewriteEnding words.how text e };

    fn make(&self, alloc: Global, text: &[u8]) -> Result<Rewritten, Ending> {
        rewrite_text(alloc, text, self.how)
    }

    ghost unread = { λ words text e h. unread_rewrite words.how text e h };
}

// Writes a text to File, and then lines to Report.
fn write_both<D: Desk>(desk: &mut D, name: &str, text: &[u8], lines: &[u8]) -> Result<(), Ending>
    requires { (D.outside desk.old).file.stage ≡ Stage.Unasked }
    ensures { WritesLines name.now text.now lines.now result (D.outside desk.old)
        (D.outside desk.new) }
{
    write_file(desk, name, text)?;
    write_report(desk, lines)?;
    Ok(())
}

/// Rewrites the program, writes its text to File once the text is whole, and then its lines to Report.
impl Work for RewriteWords<'_> {
    ghost command = { λ words. rewrite_command words.how words.program.now words.out.now };

    fn perform<D: Desk>(&self, alloc: Global, desk: &mut D) -> Result<(), Ending> {
        let rewritten = read_with(alloc, desk, self.program, self)?;
        write_both(desk, self.out, &rewritten.text, &rewritten.lines)?;
        Ok(())
    }
}
