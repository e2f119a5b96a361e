// Laws only: what was put is read, what was read can be put again, and what stood in a field plays no part.
