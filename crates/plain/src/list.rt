// Lists of at most N items. What does not fit is dropped.

#[derive(Drop)]
pub struct List<T, const N: usize> {
    items: [T; N],
    count: usize,
}

impl<T: Copy, const N: usize> List<T, N> {
    // None yet; `blank` stands on the places that are not used.
    pub fn new(blank: T) -> List<T, N> {
        List {
            items: [blank; N],
            count: 0,
        }
    }

    pub fn push(&mut self, item: T) {
        if self.count < N {
            self.items[self.count] = item;
            self.count += 1;
        }
    }

    pub fn is_full(&self) -> bool {
        self.count >= N
    }

    pub fn as_slice(&self) -> &[T] {
        self.items.get(..self.count).unwrap_or(&self.items)
    }

    pub fn as_mut_slice(&mut self) -> &mut [T] {
        let n = self.count.min(N);
        &mut self.items[..n]
    }
}
