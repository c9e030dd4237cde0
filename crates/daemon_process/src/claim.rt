//! A claim of the seat.
use crate::arrival::answer_by;
use crate::context::DaemonContext;
use crate::watched::ask;
use daemon_desk::Claiming;
use sockets::Connection;
use std::rt::Clock;
use std::sync::Wait;
use std::thread;
use std::time::Duration;

/// How long a daemon waits before it claims again, in milliseconds.
const PAUSE: u64 = 1;

impl<R: Wait + Clock> DaemonContext<'_, R> {
    /// Claims the seat from the generation that the daemon wants. It claims again while taken asks have no reply, until
    /// a deadline.
    pub(crate) fn claim(&self, broker: &mut Connection<'_, R>) -> Claiming {
        let mut deadline = answer_by(self.rt);
        for _ in self.rt.forever() {
            match self.claim_once(broker) {
                Claiming::Waits if !deadline.is_over(self.rt) => {
                    thread::sleep(self.rt, Duration::from_millis(PAUSE));
                }
                claiming => return claiming,
            }
        }
        unreachable!()
    }

    /// Claims the seat, if the daemon wants to. The answer may take as long as it likes while the connection stands.
    fn claim_once(&self, broker: &mut Connection<'_, R>) -> Claiming {
        let Some(frame) = self.shared.claim(self.rt) else {
            return Claiming::Broken;
        };
        match ask(self.rt, self.shared.silences(), broker, &frame) {
            Some(answer) => self.shared.take_claim(self.rt, &answer),
            None => Claiming::Broken,
        }
    }
}
