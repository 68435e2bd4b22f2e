//! A session, or none, that answers lines in a format.

ghost use Rattle.std.specs.Prelude.{◌≡◌};

use line_replies::{Draw, Format, Machine, Response};
use play_midend::Session;
use std::alloc::Global;
use std::marker::{Model, PhantomData};

/// A session, or none, that answers lines in this format.
#[derive(Drop)]
pub(crate) struct SessionMachine<T, P: Draw> {
    session: Option<Session<P>>,
    format: PhantomData<T>,
}

impl<T, P: Draw> Model for SessionMachine<T, P> {
    ghost use Rattle.std.specs.Prelude.{Option};
    ghost use Rattle.play_midend.specs.Histories.{History};

    ghost Value = { Option (History P) };

    ghost view = { λ s. s.session };
}

impl<T, P: Draw> SessionMachine<T, P> {
    pub(crate) fn new(session: Option<Session<P>>) -> SessionMachine<T, P>
        ensures { result ≡ session }
    {
        SessionMachine {
            session,
            format: PhantomData,
        }
    }

    pub(crate) fn into_session(self) -> Option<Session<P>>
        ensures { result ≡ self }
    {
        self.session
    }
}

impl<T: Format<P>, P: Draw> Machine for SessionMachine<T, P> {
    ghost use Rattle.line_replies.specs.Commands.{is_quit};

    ghost reply = { T.reply };

    ghost is_quit = { is_quit };

    fn answer(&mut self, alloc: Global, line: Option<&[u8]>) -> Response {
        T::answer(alloc, &mut self.session, line)
    }
}
