// A link on its stage: its sink, the pool, the encoder and the tickets that are held. Each command stands in the module of its kind.
ghost use Rattle.std.specs.Prelude.{◌≡◌, IfOk};
ghost use Rattle.scenario_play.specs.Scenes.{opening};
ghost use Rattle.scenario_play.specs.Tickets.{all_collected};

use crate::chosen::Chosen;
use crate::outlet::Outlet;
use crate::tickets::Tickets;
use crate::trouble::Trouble;
use scenario_text::command::EncoderForm;
use sender::sender_link::SenderLink;
use std::alloc::Global;
use std::marker::Model;

pub mod calls;
pub mod comeback;
pub mod performing;
pub mod props;
pub mod tickets;

// It cannot be let go, since its tickets cannot.
pub struct Player<'a, S: Outlet> {
    heap: Global,
    link: SenderLink<'a>,
    sink: S,
    encoder: Chosen,
    pool: Vec<u8>,
    tickets: Tickets,
    // A payload on its way out of the sink.
    out: Vec<u8>,
}

impl<'a, S: Outlet> Model for Player<'a, S> {
    ghost use Rattle.std.specs.Prelude.{vec_items, vec_len};
    ghost use Rattle.scenario_play.specs.Scenes.{Scene};

    ghost Value = { Scene };

    ghost view = { λ p. record { link = p.link; sink = S.Sink.model p.sink; encoder = p.encoder.0; pool = vec_items p.pool; tickets = p.tickets; room = vec_len p.out } };
}

impl<'a, S: Outlet> Player<'a, S> {
    // A player with this link and this sink, an empty pool and no ticket.
    pub fn new(heap: Global, link: SenderLink<'a>, sink: S) -> Result<Player<'a, S>, Trouble>
        ensures { IfOk result (λ p. p ≡ opening link.entry (S.Sink.model sink)) }
    {
        let out = vec![in heap; 0u8; sink.widest()]?;
        Ok(Player {
            heap,
            link,
            sink,
            encoder: Chosen(EncoderForm::Compact),
            pool: Vec::new(heap),
            tickets: Tickets::new(heap),
            out,
        })
    }

    // The link, with every ticket collected that was still held.
    pub fn finish(self) -> SenderLink<'a>
        ensures { result ≡ all_collected self.entry.tickets self.entry.link }
    {
        let Player {
            heap: _,
            mut link,
            sink: _,
            encoder: _,
            pool: _,
            tickets,
            out: _,
        } = self;
        tickets.collect_all(&mut link);
        link
    }
}
