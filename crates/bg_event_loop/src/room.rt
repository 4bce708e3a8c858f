//! How the loops of a port keep the bounds on their connections and their memory.

use crate::client::Client;
use crate::endpoint_ports::EndpointPorts;
use crate::event_loop::EventLoop;
use crate::request_log::RequestLog;
use bg_load::{Activity, Among};
use bg_sockets::is_drained;

impl Client {
    /// What the connection does now.
    fn activity(&self) -> Activity {
        let connection = self.sides.client();
        let left = connection.rest().len();
        let written = self.answer.size.saturating_sub(left) as u64;
        if connection.is_inside() || self.tunnel.is_some() {
            Activity::Inside
        } else if left > 0 {
            Activity::Answering {
                weight: self.answer.size as u64,
                written,
            }
        } else if self.lingering.has_begun {
            Activity::Lingering {
                moved: written.saturating_add(self.lingering.discarded),
            }
        } else if self.record.is_whole() {
            Activity::Waiting(self.record.bytes())
        } else if connection.is_idle() {
            Activity::Idle
        } else {
            Activity::Arriving(self.record.bytes())
        }
    }
}

impl<'a, P: EndpointPorts, L: RequestLog> EventLoop<'a, P, L> {
    /// Notes what a connection does now.
    pub(crate) fn observe(&mut self, key: usize) {
        if let Some(client) = self.clients.get(key) {
            self.loads.observe(key, client.activity(), self.now);
        }
    }

    /// Tells the port what the connections of this loop take, and notes what those of the other loops take.
    fn share_loads(&mut self) {
        let own = self.loads.totals();
        self.port.note_load(self.shared, own);
        self.shared = own;
        self.loads.note_others(self.port.others(own));
    }

    /// Closes a connection. If its request is inside, the request is given up.
    fn close(&mut self, key: usize) {
        if let Some(client) = self.clients.get_mut(key) {
            client.sides.fail();
        }
        self.remove_if_left(key);
        self.make_due(key);
        self.share_loads();
    }

    /// Whether a further connection may be accepted. A full loop makes room: it closes connections whose clients take too little
    /// of their responses, if these take too much memory. Otherwise it closes the connection that is idle for the longest time,
    /// or else one that makes too little progress.
    pub(crate) fn has_room(&mut self) -> bool {
        self.share_loads();
        if self.loads.is_full_of_responses() {
            self.drop_responses();
        } else if self.loads.is_full()
            && let Some(key) = self.least_needed()
        {
            self.close(key);
        }
        !self.loads.is_full()
    }

    /// The connection that is idle for the longest time, or else the one that is slow for the longest time.
    fn least_needed(&mut self) -> Option<usize> {
        match self.oldest_idle() {
            Some(key) => Some(key),
            None => self.loads.slowest(Among::All, self.now),
        }
    }

    /// Closes connections whose responses are to be dropped, until responses leave room for a further connection, or until there
    /// is no such connection.
    fn drop_responses(&mut self) {
        for _ in 0..self.clients.bound() {
            if !self.loads.is_full_of_responses() {
                return;
            }
            let Some(key) = self.response_to_drop() else {
                return;
            };
            self.serve_once_more(key);
            if self.response_to_drop() == Some(key) {
                self.close(key);
            }
        }
    }

    /// The connection whose response is dropped first while responses leave no room: one that is slow, or else the one whose
    /// client has taken nothing for the longest time, if this loop is to make room.
    fn response_to_drop(&self) -> Option<usize> {
        match self.loads.slowest(Among::Responses, self.now) {
            Some(key) => Some(key),
            None => self.loads.stillest_response(),
        }
    }

    /// Makes a step of a connection that is to be closed, and notes what it does then. Its client may have sent a request
    /// meanwhile, or have taken bytes: of these an event tells only once the socket has room for many.
    fn serve_once_more(&mut self, key: usize) {
        self.step_once_more(key);
        self.observe(key);
        self.make_due(key);
    }

    /// The connection that is idle for the longest time. Each that it asks for is read once more: one whose client has sent
    /// a request meanwhile is idle no longer.
    fn oldest_idle(&mut self) -> Option<usize> {
        for _ in 0..self.clients.bound() {
            let key = self.loads.oldest_idle()?;
            self.serve_once_more(key);
            if self.is_idle(key) {
                return Some(key);
            }
        }
        None
    }

    /// Closes slow connections while requests or responses take too much memory, and pauses large requests.
    pub(crate) fn keep_bounds(&mut self) {
        self.free_responses();
        self.free_stuck();
        self.regulate();
        self.free_stalled();
        self.regulate();
    }

    /// If responses take too much memory, closes slow connections until they take at most three quarters of the bound, or until
    /// none is slow.
    fn free_responses(&mut self) {
        let most = self.settings.loads.response_bytes;
        if !self.loads.responses_take_more_than(most) {
            return;
        }
        for _ in 0..self.clients.bound() {
            if !self.loads.responses_take_more_than(most / 4 * 3) {
                return;
            }
            let Some(key) = self.loads.slowest(Among::Responses, self.now) else {
                return;
            };
            self.serve_once_more(key);
            if self.loads.slowest(Among::Responses, self.now) == Some(key) {
                self.close(key);
            }
        }
    }

    /// If requests take too much memory, closes connections with large ones that are slow although none of their bytes wait to
    /// be read.
    fn free_stuck(&mut self) {
        let mut from = 0;
        for _ in 0..self.clients.bound() {
            let Some(key) = self.loads.stuck_from(from, self.now) else {
                return;
            };
            if self.has_no_input(key) {
                self.close(key);
            }
            from = key.saturating_add(1);
        }
    }

    /// Whether no byte of a client waits to be read.
    fn has_no_input(&self, key: usize) -> bool {
        match self.clients.get(key) {
            Some(client) => is_drained(&client.stream),
            None => false,
        }
    }

    /// If none of the large requests that go on makes progress while others are paused for them, closes the connections of those
    /// that have made none for the longest time.
    fn free_stalled(&mut self) {
        for _ in 0..self.clients.bound() {
            match self.loads.stalled(self.now) {
                Some(key) => self.close(key),
                None => return,
            }
        }
    }

    /// Pauses and resumes large requests.
    pub(crate) fn regulate(&mut self) {
        self.share_loads();
        for _ in 0..self.clients.bound() {
            let Some(key) = self.loads.regulate(self.now) else {
                return;
            };
            let is_paused = self.loads.is_paused(key);
            if let Some(client) = self.clients.get_mut(key) {
                client.is_paused = is_paused;
            }
            self.make_due(key);
        }
    }
}
