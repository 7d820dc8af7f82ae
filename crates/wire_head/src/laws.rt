//! What the definition of a reply says as a whole, and of some texts; and the plain form of its
//! reader, which keeps all bytes.

ghost use Rattle.std.specs.Prelude.{◌≡◌, ◌++◌, [], ◌∷◌, codes, Bool, true, false, Some, None, Ok};
ghost use Rattle.std.specs.Prelude.{List, ℕ, length, ◌+◌, ◌<◌, ◌≤◌};
ghost use Rattle.wire_head.specs.Replies.{is_challenge, progress, reply};
ghost use Rattle.wire_head.specs.Lines.{head_len};
ghost use Rattle.wire_head.specs.ReadHeads.{IsHeadOf, is_fit, written};
ghost use Rattle.wire_head.specs.declared.head_reader.ReadHead.{ReadHead};
ghost use Rattle.spaces.specs.declared.roster.Method.{Method};
ghost use Rattle.wire_head.specs.Rows.{ok, told, challenged, with_line, empty_row, chunked_row};
ghost use Rattle.wire_head.specs.Rows.{cut_row, info_row, both_row, both_of_server, both_of_proxy};
ghost use Rattle.wire_head.specs.Rows.{challenge_row, next_nonce};
ghost use Rattle.wire_head.specs.FinalHeads.{IsShown, Carries, final_head, is_final, values_fit};
ghost use Rattle.wire_head.specs.declared.reply.Reply.{Reply};
ghost use Rattle.wire_head.specs.declared.response_head.ReplyHead.{ReplyHead};
ghost use Rattle.spaces.specs.declared.roster.Method.TheVariants.{Get};
ghost use Rattle.wire_head.specs.declared.progress.Progress.TheVariants.{Open, Whole, Fault};
ghost use Rattle.wire_head.specs.declared.reply.WireFault.TheVariants.{BadHead, HeadTooLong};
ghost use Rattle.wire_head.specs.declared.reply.WireFault.TheVariants.{BadFraming, BodyTooLong};

mod plain;
pub(crate) mod plain_reader;

/// A text has one outcome: once it is decided, it stays, whatever follows and whether the stream
/// ends.
pub fn outcomes()
    ensures stay { (method : Method) (text more : List ℕ) (ended : Bool)
        → ¬ (reply method text false ≡ Ok None)
        → reply method (text ++ more) ended ≡ reply method text false }
{}

/// A whole reply ends within its text, and one that only the stream's end makes whole has all of
/// it.
pub fn replies_end()
    ensures within { (method : Method) (text : List ℕ) (ended : Bool) (r : Reply) (n : ℕ)
        → reply method text ended ≡ Ok (Some (r, n)) → n ≤ length text }
    ensures at_end { (method : Method) (text : List ℕ) (r : Reply) (n : ℕ)
        → reply method text false ≡ Ok None → reply method text true ≡ Ok (Some (r, n))
        → n ≡ length text }
{}

/// A head that was written of fit parts reads back, whatever follows it, and no other parts have
/// it.
pub fn heads_read_back()
    ensures back { (h : ReadHead) (rest : List ℕ) → is_fit h ≡ true
        → IsHeadOf (written h ++ rest) (record h { length = length (written h) }) }
    ensures one { (bytes : List ℕ) (g h : ReadHead) → IsHeadOf bytes g → IsHeadOf bytes h → g ≡ h }
{}

/// A challenge has no infos and another reply has no challenges; what a reply carries are the
/// values of its final head, whose code is no interim one.
pub fn carried()
    ensures challenge { (text : List ℕ) (r : Reply) → IsShown text r → is_challenge r.code ≡ true
        → (r.server_info ≡ []) × (r.proxy_info ≡ []) }
    ensures other { (text : List ℕ) (r : Reply)
        → IsShown text r → is_challenge r.code ≡ false → r.fields ≡ [] }
    ensures in_order { (text : List ℕ) (r : Reply) → IsShown text r
        → (h : ReplyHead) × (final_head text ≡ Some h) × Carries h r }
    ensures fit { (text : List ℕ) (r : Reply) → IsShown text r → values_fit r ≡ true }
    ensures last_code { (text : List ℕ) (r : Reply) → IsShown text r → is_final r.code ≡ true }
{}

/// Worked examples.
pub fn worked()
    ensures cut { progress Get cut_row ≡ Open None }
    ensures lengths { progress Get (with_line (codes "Content-Length: 5, 6")) ≡ Fault BadFraming }
    ensures no_head { progress Get (codes "HTP\n\n") ≡ Fault BadHead }
    ensures too_long { progress Get (with_line (codes "Content-Length: 1048577"))
        ≡ Fault BodyTooLong }
    ensures interim { progress Get (codes "HTTP/1.1 100 Continue\r\n\r\n" ++ empty_row)
        ≡ Whole (ok true 0) 63 }
    ensures blank_first { progress Get (codes "\r\n" ++ empty_row) ≡ Whole (ok true 0) 40 }
    ensures blank_only { progress Get (codes "\n\n") ≡ Fault BadHead }
    ensures chunked { progress Get chunked_row ≡ Whole (ok true 3) 60 }
    ensures info { progress Get info_row ≡ Whole (told (next_nonce ∷ []) []) 74 }
    ensures both_infos { progress Get both_row ≡ Whole (told both_of_server both_of_proxy) 169 }
    ensures challenge { progress Get challenge_row ≡ Whole challenged 119 }
{}

/// The limits. A text that decides nothing is within those of the heads and of the body together.
pub fn limits()
    ensures head { (method : Method) (text : List ℕ) → head_len text ≡ None → 65536 < length text
        → progress method text ≡ Fault HeadTooLong }
    ensures body { (text : List ℕ) → length text ≡ 1048576
        → progress Get (with_line (codes "Content-Length: 1048576") ++ text)
        ≡ Whole (ok true 1048576) 1048620 }
    ensures undecided { (method : Method) (text : List ℕ) → reply method text false ≡ Ok None
        → length text ≤ 65536 + 1048576 }
{}
