// Laws only: each refusal is given exactly when its row says so and no earlier row does.
