//! A law of transcripts: the function does nothing.
ghost use Rattle.std.specs.Prelude.{◌≡◌, ℕ, List};
ghost use Rattle.asm_io.specs.Lines.{Line};
ghost use Rattle.asm_board.specs.declared.entry.Entry.{Entry};
ghost use Rattle.asm_stdio.specs.Transcripts.{FullTranscript, NeverWants, Transcript};

/// The lines and the journal before them fix what is written for them, byte for byte, and the
/// journal after them: up to want of memory, which its own line tells.
pub fn a_transcript_fixes_its_bytes()
    ensures fixed { (journal : List Entry) (lines : List Line) (written other : List ℕ)
        (last end : List Entry) →
        Transcript journal lines written last → Transcript journal lines other end →
        NeverWants written → NeverWants other → (written ≡ other) × (last ≡ end) }

    // where that line is never written, each answer is a reply
    ensures full { (journal : List Entry) (lines : List Line) (written : List ℕ)
        (last : List Entry) → Transcript journal lines written last → NeverWants written →
        FullTranscript journal lines written last }
{}
